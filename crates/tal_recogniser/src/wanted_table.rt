ghost use Rattle.std.specs.Prelude.{◌≡◌, MatchOption, Some, None};
ghost use Rattle.tal_recogniser.specs.WantedTable.{name_step, begin_step, end_step, then_step, do_step, until_step};
ghost use Rattle.tal_recogniser.specs.WantedTable.{proc_step, assign_step, equal_step, close_step, close_index_step};
ghost use Rattle.tal_recogniser.specs.WantedTable.{semicolon_step, colon_step, finish_step, wanted_step};

use crate::symbol::Symbol;
use tal_tokens::Token;

fn name_row(token: &Token) -> Option<&'static [Symbol]>
    ensures { MatchOption result (name_step token.now ≡ None) (λ r. name_step token.now ≡ Some r.now) }
{
    match token {
        Token::Name(_, _) => Some(&[]),
        _ => None,
    }
}

fn begin_row(token: &Token) -> Option<&'static [Symbol]>
    ensures { MatchOption result (begin_step token.now ≡ None) (λ r. begin_step token.now ≡ Some r.now) }
{
    match token {
        Token::Begin(_) => Some(&[]),
        _ => None,
    }
}

fn end_row(token: &Token) -> Option<&'static [Symbol]>
    ensures { MatchOption result (end_step token.now ≡ None) (λ r. end_step token.now ≡ Some r.now) }
{
    match token {
        Token::End(_) => Some(&[]),
        _ => None,
    }
}

fn then_row(token: &Token) -> Option<&'static [Symbol]>
    ensures { MatchOption result (then_step token.now ≡ None) (λ r. then_step token.now ≡ Some r.now) }
{
    match token {
        Token::Then(_) => Some(&[]),
        _ => None,
    }
}

fn do_row(token: &Token) -> Option<&'static [Symbol]>
    ensures { MatchOption result (do_step token.now ≡ None) (λ r. do_step token.now ≡ Some r.now) }
{
    match token {
        Token::Do(_) => Some(&[]),
        _ => None,
    }
}

fn until_row(token: &Token) -> Option<&'static [Symbol]>
    ensures { MatchOption result (until_step token.now ≡ None) (λ r. until_step token.now ≡ Some r.now) }
{
    match token {
        Token::Until(_) => Some(&[]),
        _ => None,
    }
}

fn proc_row(token: &Token) -> Option<&'static [Symbol]>
    ensures { MatchOption result (proc_step token.now ≡ None) (λ r. proc_step token.now ≡ Some r.now) }
{
    match token {
        Token::Proc(_) => Some(&[]),
        _ => None,
    }
}

fn assign_row(token: &Token) -> Option<&'static [Symbol]>
    ensures { MatchOption result (assign_step token.now ≡ None) (λ r. assign_step token.now ≡ Some r.now) }
{
    match token {
        Token::Assign(_) => Some(&[]),
        _ => None,
    }
}

fn equal_row(token: &Token) -> Option<&'static [Symbol]>
    ensures { MatchOption result (equal_step token.now ≡ None) (λ r. equal_step token.now ≡ Some r.now) }
{
    match token {
        Token::Equal(_) => Some(&[]),
        _ => None,
    }
}

fn close_row(token: &Token) -> Option<&'static [Symbol]>
    ensures { MatchOption result (close_step token.now ≡ None) (λ r. close_step token.now ≡ Some r.now) }
{
    match token {
        Token::Close(_) => Some(&[]),
        _ => None,
    }
}

fn close_index_row(token: &Token) -> Option<&'static [Symbol]>
    ensures { MatchOption result (close_index_step token.now ≡ None) (λ r. close_index_step token.now ≡ Some r.now) }
{
    match token {
        Token::CloseIndex(_) => Some(&[]),
        _ => None,
    }
}

fn semicolon_row(token: &Token) -> Option<&'static [Symbol]>
    ensures { MatchOption result (semicolon_step token.now ≡ None) (λ r. semicolon_step token.now ≡ Some r.now) }
{
    match token {
        Token::Semicolon(_) => Some(&[]),
        _ => None,
    }
}

fn colon_row(token: &Token) -> Option<&'static [Symbol]>
    ensures { MatchOption result (colon_step token.now ≡ None) (λ r. colon_step token.now ≡ Some r.now) }
{
    match token {
        Token::Colon(_) => Some(&[]),
        _ => None,
    }
}

fn finish_row(token: &Token) -> Option<&'static [Symbol]>
    ensures { MatchOption result (finish_step token.now ≡ None) (λ r. finish_step token.now ≡ Some r.now) }
{
    match token {
        Token::Finish(_) => Some(&[]),
        _ => None,
    }
}

/// What is to come after a token that is wanted by itself: nothing.
pub fn wanted_row(symbol: Symbol, token: &Token) -> Option<&'static [Symbol]>
    ensures { MatchOption result (wanted_step symbol token.now ≡ None)
        (λ r. wanted_step symbol token.now ≡ Some r.now) }
{
    match symbol {
        Symbol::WantName => name_row(token),
        Symbol::WantBegin => begin_row(token),
        Symbol::WantEnd => end_row(token),
        Symbol::WantThen => then_row(token),
        Symbol::WantDo => do_row(token),
        Symbol::WantUntil => until_row(token),
        Symbol::WantProc => proc_row(token),
        Symbol::WantAssign => assign_row(token),
        Symbol::WantEqual => equal_row(token),
        Symbol::WantClose => close_row(token),
        Symbol::WantCloseIndex => close_index_row(token),
        Symbol::WantSemicolon => semicolon_row(token),
        Symbol::WantColon => colon_row(token),
        Symbol::WantFinish => finish_row(token),
        _ => None,
    }
}
