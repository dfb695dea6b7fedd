ghost use Rattle.std.specs.Prelude.{◌≡◌, MatchOption, Some, None};
ghost use Rattle.tal_recogniser.specs.ExpressionTable.{factor_step, index_step, times_step, term_step, rel_step};
ghost use Rattle.tal_recogniser.specs.ExpressionTable.{neg_step, and_step, or_step};

use crate::symbol::Symbol;
use tal_tokens::Token;

/// What is to come after the first token of a factor.
pub fn factor_row(token: &Token) -> Option<&'static [Symbol]>
    ensures { MatchOption result (factor_step token.now ≡ None) (λ r. factor_step token.now ≡ Some r.now) }
{
    match token {
        Token::Minus(_) => Some(&[Symbol::Factor, Symbol::LevelEnd]),
        Token::Number(_, _) => Some(&[]),
        Token::Name(_, _) => Some(&[Symbol::IndexTail]),
        Token::Open(_) => Some(&[
            Symbol::Neg,
            Symbol::AndTail,
            Symbol::OrTail,
            Symbol::WantClose,
            Symbol::LevelEnd,
        ]),
        _ => None,
    }
}

/// What is to come after the first token of `[ "[" expr "]" ]`.
pub fn index_row(token: &Token) -> Option<&'static [Symbol]>
    ensures { MatchOption result (index_step token.now ≡ None) (λ r. index_step token.now ≡ Some r.now) }
{
    match token {
        Token::OpenIndex(_) => Some(&[
            Symbol::Neg,
            Symbol::AndTail,
            Symbol::OrTail,
            Symbol::WantCloseIndex,
            Symbol::LevelEnd,
        ]),
        _ => None,
    }
}

/// What is to come after the first token of `{ scale factor }`.
pub fn times_row(token: &Token) -> Option<&'static [Symbol]>
    ensures { MatchOption result (times_step token.now ≡ None) (λ r. times_step token.now ≡ Some r.now) }
{
    match token {
        Token::Star(_) | Token::Slash(_) => Some(&[Symbol::Factor, Symbol::TimesTail]),
        _ => None,
    }
}

/// What is to come after the first token of `{ sign product }`.
pub fn term_row(token: &Token) -> Option<&'static [Symbol]>
    ensures { MatchOption result (term_step token.now ≡ None) (λ r. term_step token.now ≡ Some r.now) }
{
    match token {
        Token::Plus(_) | Token::Minus(_) => Some(&[
            Symbol::Factor,
            Symbol::TimesTail,
            Symbol::TermTail,
        ]),
        _ => None,
    }
}

/// What is to come after the first token of `[ rel sum ]`.
pub fn rel_row(token: &Token) -> Option<&'static [Symbol]>
    ensures { MatchOption result (rel_step token.now ≡ None) (λ r. rel_step token.now ≡ Some r.now) }
{
    match token {
        Token::Equal(_)
        | Token::Differs(_)
        | Token::Less(_)
        | Token::AtMost(_)
        | Token::Greater(_)
        | Token::AtLeast(_) => Some(&[Symbol::Factor, Symbol::TimesTail, Symbol::TermTail]),
        _ => None,
    }
}

/// What is to come after the first token of `NOT neg | relation`.
pub fn neg_row(token: &Token) -> Option<&'static [Symbol]>
    ensures { MatchOption result (neg_step token.now ≡ None) (λ r. neg_step token.now ≡ Some r.now) }
{
    match token {
        Token::Not(_) => Some(&[Symbol::Neg, Symbol::LevelEnd]),
        Token::Minus(_) => Some(&[
            Symbol::Factor,
            Symbol::LevelEnd,
            Symbol::TimesTail,
            Symbol::TermTail,
            Symbol::RelTail,
        ]),
        Token::Number(_, _) => Some(&[Symbol::TimesTail, Symbol::TermTail, Symbol::RelTail]),
        Token::Name(_, _) => Some(&[
            Symbol::IndexTail,
            Symbol::TimesTail,
            Symbol::TermTail,
            Symbol::RelTail,
        ]),
        Token::Open(_) => Some(&[
            Symbol::Neg,
            Symbol::AndTail,
            Symbol::OrTail,
            Symbol::WantClose,
            Symbol::LevelEnd,
            Symbol::TimesTail,
            Symbol::TermTail,
            Symbol::RelTail,
        ]),
        _ => None,
    }
}

/// What is to come after the first token of `{ AND neg }`.
pub fn and_row(token: &Token) -> Option<&'static [Symbol]>
    ensures { MatchOption result (and_step token.now ≡ None) (λ r. and_step token.now ≡ Some r.now) }
{
    match token {
        Token::And(_) => Some(&[Symbol::Neg, Symbol::AndTail]),
        _ => None,
    }
}

/// What is to come after the first token of `{ OR both }`.
pub fn or_row(token: &Token) -> Option<&'static [Symbol]>
    ensures { MatchOption result (or_step token.now ≡ None) (λ r. or_step token.now ≡ Some r.now) }
{
    match token {
        Token::Or(_) => Some(&[Symbol::Neg, Symbol::AndTail, Symbol::OrTail]),
        _ => None,
    }
}
