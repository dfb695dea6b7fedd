ghost use Rattle.std.specs.Prelude.{◌≡◌, MatchOption, Some, None};
ghost use Rattle.tal_recogniser.specs.StatementTable.{argument_step, further_step, arguments_step, values_step};
ghost use Rattle.tal_recogniser.specs.StatementTable.{answer_step, right_step, right_tail_step, statement_step};
ghost use Rattle.tal_recogniser.specs.StatementTable.{else_step, row_step, direction_step, step_step};

use crate::symbol::Symbol;
use tal_tokens::Token;

/// `expr THEN statement [ ELSE statement ]`
const IF_ROW: &[Symbol] = &[
    Symbol::Neg,
    Symbol::AndTail,
    Symbol::OrTail,
    Symbol::WantThen,
    Symbol::Statement,
    Symbol::ElseTail,
    Symbol::LevelEnd,
];

/// `name ":=" expr ( TO | DOWNTO ) expr [ BY constant ] DO statement`
const FOR_ROW: &[Symbol] = &[
    Symbol::WantName,
    Symbol::WantAssign,
    Symbol::Neg,
    Symbol::AndTail,
    Symbol::OrTail,
    Symbol::Direction,
    Symbol::Neg,
    Symbol::AndTail,
    Symbol::OrTail,
    Symbol::StepTail,
    Symbol::WantDo,
    Symbol::Statement,
    Symbol::LevelEnd,
];

/// `statement UNTIL expr`
const DO_ROW: &[Symbol] = &[
    Symbol::Statement,
    Symbol::WantUntil,
    Symbol::Neg,
    Symbol::AndTail,
    Symbol::OrTail,
    Symbol::LevelEnd,
];

/// `expr ")"` and what goes on with an expression
const PARENS_ROW: &[Symbol] = &[
    Symbol::Neg,
    Symbol::AndTail,
    Symbol::OrTail,
    Symbol::WantClose,
    Symbol::LevelEnd,
    Symbol::TimesTail,
    Symbol::TermTail,
    Symbol::RelTail,
    Symbol::AndTail,
    Symbol::OrTail,
];

/// `expr "]"` and what goes on with an expression
const INDEX_ROW: &[Symbol] = &[
    Symbol::Neg,
    Symbol::AndTail,
    Symbol::OrTail,
    Symbol::WantCloseIndex,
    Symbol::LevelEnd,
    Symbol::TimesTail,
    Symbol::TermTail,
    Symbol::RelTail,
    Symbol::AndTail,
    Symbol::OrTail,
];

/// What is to come after the first token of an argument.
pub fn argument_row(token: &Token) -> Option<&'static [Symbol]>
    ensures { MatchOption result (argument_step token.now ≡ None) (λ r. argument_step token.now ≡ Some r.now) }
{
    match token {
        Token::Receive(_) | Token::Process(_, _) | Token::Text(_) => Some(&[]),
        _ => answer_row(token),
    }
}

/// What is to come after the first token of `{ "," argument }`.
pub fn further_row(token: &Token) -> Option<&'static [Symbol]>
    ensures { MatchOption result (further_step token.now ≡ None) (λ r. further_step token.now ≡ Some r.now) }
{
    match token {
        Token::Comma(_) => Some(&[Symbol::Argument, Symbol::FurtherTail]),
        _ => None,
    }
}

/// What is to come after the first token of `[ "(" argument { "," argument } ")" ]`.
pub fn arguments_row(token: &Token) -> Option<&'static [Symbol]>
    ensures { MatchOption result (arguments_step token.now ≡ None) (λ r. arguments_step token.now ≡ Some r.now) }
{
    match token {
        Token::Open(_) => Some(&[
            Symbol::Argument,
            Symbol::FurtherTail,
            Symbol::WantClose,
            Symbol::LevelEnd,
        ]),
        _ => None,
    }
}

/// What is to come after the first token of `{ "," expr }`.
pub fn values_row(token: &Token) -> Option<&'static [Symbol]>
    ensures { MatchOption result (values_step token.now ≡ None) (λ r. values_step token.now ≡ Some r.now) }
{
    match token {
        Token::Comma(_) => Some(&[
            Symbol::Neg,
            Symbol::AndTail,
            Symbol::OrTail,
            Symbol::ValuesTail,
        ]),
        _ => None,
    }
}

/// What is to come after the first token of `[ expr ]`.
pub fn answer_row(token: &Token) -> Option<&'static [Symbol]>
    ensures { MatchOption result (answer_step token.now ≡ None) (λ r. answer_step token.now ≡ Some r.now) }
{
    match token {
        Token::Not(_) => Some(&[
            Symbol::Neg,
            Symbol::LevelEnd,
            Symbol::AndTail,
            Symbol::OrTail,
        ]),
        Token::Minus(_) => Some(&[
            Symbol::Factor,
            Symbol::LevelEnd,
            Symbol::TimesTail,
            Symbol::TermTail,
            Symbol::RelTail,
            Symbol::AndTail,
            Symbol::OrTail,
        ]),
        Token::Number(_, _) => Some(&[
            Symbol::TimesTail,
            Symbol::TermTail,
            Symbol::RelTail,
            Symbol::AndTail,
            Symbol::OrTail,
        ]),
        Token::Name(_, _) => Some(&[
            Symbol::IndexTail,
            Symbol::TimesTail,
            Symbol::TermTail,
            Symbol::RelTail,
            Symbol::AndTail,
            Symbol::OrTail,
        ]),
        Token::Open(_) => Some(PARENS_ROW),
        _ => None,
    }
}

/// What is to come after the first token of a right side.
pub fn right_row(token: &Token) -> Option<&'static [Symbol]>
    ensures { MatchOption result (right_step token.now ≡ None) (λ r. right_step token.now ≡ Some r.now) }
{
    match token {
        Token::Name(_, _) => Some(&[Symbol::RightTail]),
        _ => answer_row(token),
    }
}

/// What is to come after the first token of a right side after the name that it begins with.
pub fn right_tail_row(token: &Token) -> Option<&'static [Symbol]>
    ensures { MatchOption result (right_tail_step token.now ≡ None) (λ r. right_tail_step token.now ≡ Some r.now) }
{
    match token {
        Token::Open(_) => Some(&[
            Symbol::Neg,
            Symbol::AndTail,
            Symbol::OrTail,
            Symbol::ValuesTail,
            Symbol::WantClose,
            Symbol::LevelEnd,
        ]),
        Token::OpenIndex(_) => Some(INDEX_ROW),
        Token::Star(_) | Token::Slash(_) | Token::Plus(_) | Token::Minus(_) => Some(&[
            Symbol::Factor,
            Symbol::TimesTail,
            Symbol::TermTail,
            Symbol::RelTail,
            Symbol::AndTail,
            Symbol::OrTail,
        ]),
        Token::Equal(_)
        | Token::Differs(_)
        | Token::Less(_)
        | Token::AtMost(_)
        | Token::Greater(_)
        | Token::AtLeast(_) => Some(&[
            Symbol::Factor,
            Symbol::TimesTail,
            Symbol::TermTail,
            Symbol::AndTail,
            Symbol::OrTail,
        ]),
        Token::And(_) | Token::Or(_) => Some(&[Symbol::Neg, Symbol::AndTail, Symbol::OrTail]),
        _ => None,
    }
}

/// What is to come after the first token of a statement.
pub fn statement_row(token: &Token) -> Option<&'static [Symbol]>
    ensures { MatchOption result (statement_step token.now ≡ None) (λ r. statement_step token.now ≡ Some r.now) }
{
    match token {
        Token::Begin(_) => Some(&[
            Symbol::Statement,
            Symbol::RowTail,
            Symbol::WantEnd,
            Symbol::LevelEnd,
        ]),
        Token::If(_) => Some(IF_ROW),
        Token::While(_) => Some(&[
            Symbol::Neg,
            Symbol::AndTail,
            Symbol::OrTail,
            Symbol::WantDo,
            Symbol::Statement,
            Symbol::LevelEnd,
        ]),
        Token::For(_) => Some(FOR_ROW),
        Token::Do(_) => Some(DO_ROW),
        Token::Call(_) => Some(&[Symbol::WantName, Symbol::ArgumentsTail, Symbol::LevelEnd]),
        Token::Return(_) => Some(&[Symbol::Answer, Symbol::LevelEnd]),
        Token::Name(_, _) => Some(&[
            Symbol::IndexTail,
            Symbol::WantAssign,
            Symbol::Right,
            Symbol::LevelEnd,
        ]),
        _ => None,
    }
}

/// What is to come after the first token of `TO | DOWNTO`.
pub fn direction_row(token: &Token) -> Option<&'static [Symbol]>
    ensures { MatchOption result (direction_step token.now ≡ None) (λ r. direction_step token.now ≡ Some r.now) }
{
    match token {
        Token::To(_) | Token::DownTo(_) => Some(&[]),
        _ => None,
    }
}

/// What is to come after the first token of `[ BY constant ]`.
pub fn step_row(token: &Token) -> Option<&'static [Symbol]>
    ensures { MatchOption result (step_step token.now ≡ None) (λ r. step_step token.now ≡ Some r.now) }
{
    match token {
        Token::By(_) => Some(&[Symbol::Constant]),
        _ => None,
    }
}

/// What is to come after the first token of `[ ELSE statement ]`.
pub fn else_row(token: &Token) -> Option<&'static [Symbol]>
    ensures { MatchOption result (else_step token.now ≡ None) (λ r. else_step token.now ≡ Some r.now) }
{
    match token {
        Token::Else(_) => Some(&[Symbol::Statement]),
        _ => None,
    }
}

/// What is to come after the first token of `{ ";" statement }`.
pub fn row_row(token: &Token) -> Option<&'static [Symbol]>
    ensures { MatchOption result (row_step token.now ≡ None) (λ r. row_step token.now ≡ Some r.now) }
{
    match token {
        Token::Semicolon(_) => Some(&[Symbol::Statement, Symbol::RowTail]),
        _ => None,
    }
}
