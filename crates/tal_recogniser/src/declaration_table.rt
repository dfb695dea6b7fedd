ghost use Rattle.std.specs.Prelude.{◌≡◌, MatchOption, Some, None};
ghost use Rattle.tal_recogniser.specs.DeclarationTable.{lines_step, after_int_step, procedures_step, bounds_step};
ghost use Rattle.tal_recogniser.specs.DeclarationTable.{items_step, atom_step, constant_step, literals_step};
ghost use Rattle.tal_recogniser.specs.DeclarationTable.{parameters_step, names_step, main_step, locals_step};

use crate::symbol::Symbol;
use tal_tokens::Token;

/// What is to come after the first token of `{ globals } { procedure }`.
pub fn lines_row(token: &Token) -> Option<&'static [Symbol]>
    ensures { MatchOption result (lines_step token.now ≡ None) (λ r. lines_step token.now ≡ Some r.now) }
{
    match token {
        Token::Int(_) => Some(&[Symbol::AfterInt]),
        Token::Literal(_) => Some(&[
            Symbol::WantName,
            Symbol::WantEqual,
            Symbol::Constant,
            Symbol::LiteralsTail,
            Symbol::WantSemicolon,
            Symbol::Lines,
        ]),
        Token::Proc(_) => Some(&[
            Symbol::WantName,
            Symbol::ParametersTail,
            Symbol::MainTail,
            Symbol::WantSemicolon,
            Symbol::Locals,
            Symbol::WantBegin,
            Symbol::Locals,
            Symbol::Statement,
            Symbol::RowTail,
            Symbol::WantEnd,
            Symbol::WantSemicolon,
            Symbol::Procedures,
        ]),
        _ => None,
    }
}

/// What is to come after a token that follows the INT of a line of items or of the first procedure.
pub fn after_int_row(token: &Token) -> Option<&'static [Symbol]>
    ensures { MatchOption result (after_int_step token.now ≡ None) (λ r. after_int_step token.now ≡ Some r.now) }
{
    match token {
        Token::Name(_, _) => Some(&[
            Symbol::BoundsTail,
            Symbol::ItemsTail,
            Symbol::WantSemicolon,
            Symbol::Lines,
        ]),
        Token::Proc(_) => Some(&[
            Symbol::WantName,
            Symbol::ParametersTail,
            Symbol::MainTail,
            Symbol::WantSemicolon,
            Symbol::Locals,
            Symbol::WantBegin,
            Symbol::Locals,
            Symbol::Statement,
            Symbol::RowTail,
            Symbol::WantEnd,
            Symbol::WantSemicolon,
            Symbol::Procedures,
        ]),
        _ => None,
    }
}

/// What is to come after the first token of `{ procedure }`.
pub fn procedures_row(token: &Token) -> Option<&'static [Symbol]>
    ensures { MatchOption result (procedures_step token.now ≡ None) (λ r. procedures_step token.now ≡ Some r.now) }
{
    match token {
        Token::Int(_) => Some(&[
            Symbol::WantProc,
            Symbol::WantName,
            Symbol::ParametersTail,
            Symbol::MainTail,
            Symbol::WantSemicolon,
            Symbol::Locals,
            Symbol::WantBegin,
            Symbol::Locals,
            Symbol::Statement,
            Symbol::RowTail,
            Symbol::WantEnd,
            Symbol::WantSemicolon,
            Symbol::Procedures,
        ]),
        Token::Proc(_) => Some(&[
            Symbol::WantName,
            Symbol::ParametersTail,
            Symbol::MainTail,
            Symbol::WantSemicolon,
            Symbol::Locals,
            Symbol::WantBegin,
            Symbol::Locals,
            Symbol::Statement,
            Symbol::RowTail,
            Symbol::WantEnd,
            Symbol::WantSemicolon,
            Symbol::Procedures,
        ]),
        _ => None,
    }
}

/// What is to come after the first token of `[ "[" constant ":" constant "]" ]`.
pub fn bounds_row(token: &Token) -> Option<&'static [Symbol]>
    ensures { MatchOption result (bounds_step token.now ≡ None) (λ r. bounds_step token.now ≡ Some r.now) }
{
    match token {
        Token::OpenIndex(_) => Some(&[
            Symbol::Constant,
            Symbol::WantColon,
            Symbol::Constant,
            Symbol::WantCloseIndex,
        ]),
        _ => None,
    }
}

/// What is to come after the first token of `{ "," item }`.
pub fn items_row(token: &Token) -> Option<&'static [Symbol]>
    ensures { MatchOption result (items_step token.now ≡ None) (λ r. items_step token.now ≡ Some r.now) }
{
    match token {
        Token::Comma(_) => Some(&[Symbol::WantName, Symbol::BoundsTail, Symbol::ItemsTail]),
        _ => None,
    }
}

/// What is to come after the first token of `number | name`.
pub fn atom_row(token: &Token) -> Option<&'static [Symbol]>
    ensures { MatchOption result (atom_step token.now ≡ None) (λ r. atom_step token.now ≡ Some r.now) }
{
    match token {
        Token::Number(_, _) | Token::Name(_, _) => Some(&[]),
        _ => None,
    }
}

/// What is to come after the first token of a constant.
pub fn constant_row(token: &Token) -> Option<&'static [Symbol]>
    ensures { MatchOption result (constant_step token.now ≡ None) (λ r. constant_step token.now ≡ Some r.now) }
{
    match token {
        Token::Minus(_) => Some(&[Symbol::Atom]),
        Token::Number(_, _) | Token::Name(_, _) => Some(&[]),
        _ => None,
    }
}

/// What is to come after the first token of `{ "," literal }`.
pub fn literals_row(token: &Token) -> Option<&'static [Symbol]>
    ensures { MatchOption result (literals_step token.now ≡ None) (λ r. literals_step token.now ≡ Some r.now) }
{
    match token {
        Token::Comma(_) => Some(&[
            Symbol::WantName,
            Symbol::WantEqual,
            Symbol::Constant,
            Symbol::LiteralsTail,
        ]),
        _ => None,
    }
}

/// What is to come after the first token of `[ "(" name { "," name } ")" ]`.
pub fn parameters_row(token: &Token) -> Option<&'static [Symbol]>
    ensures { MatchOption result (parameters_step token.now ≡ None) (λ r. parameters_step token.now ≡ Some r.now) }
{
    match token {
        Token::Open(_) => Some(&[Symbol::WantName, Symbol::NamesTail, Symbol::WantClose]),
        _ => None,
    }
}

/// What is to come after the first token of `{ "," name }`.
pub fn names_row(token: &Token) -> Option<&'static [Symbol]>
    ensures { MatchOption result (names_step token.now ≡ None) (λ r. names_step token.now ≡ Some r.now) }
{
    match token {
        Token::Comma(_) => Some(&[Symbol::WantName, Symbol::NamesTail]),
        _ => None,
    }
}

/// What is to come after the first token of `[ MAIN ]`.
pub fn main_row(token: &Token) -> Option<&'static [Symbol]>
    ensures { MatchOption result (main_step token.now ≡ None) (λ r. main_step token.now ≡ Some r.now) }
{
    match token {
        Token::Main(_) => Some(&[]),
        _ => None,
    }
}

/// What is to come after the first token of `{ local }`.
pub fn locals_row(token: &Token) -> Option<&'static [Symbol]>
    ensures { MatchOption result (locals_step token.now ≡ None) (λ r. locals_step token.now ≡ Some r.now) }
{
    match token {
        Token::Int(_) => Some(&[
            Symbol::WantName,
            Symbol::NamesTail,
            Symbol::WantSemicolon,
            Symbol::Locals,
        ]),
        _ => None,
    }
}
