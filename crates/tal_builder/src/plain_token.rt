ghost use Rattle.std.specs.Prelude.{◌≡◌};
ghost use Rattle.tal_builder.specs.PlainTokens.{place_of, plain_of};
ghost use Rattle.tal_builder.specs.Outcome.{Gives, Tells};

use crate::stop::BuildFault;
use tal_tokens::{At, Token};

/// A token that says no more than where it stands.
#[derive(Clone, Copy)]
pub enum PlainToken {
    And,
    Begin,
    By,
    Do,
    Else,
    End,
    Int,
    Literal,
    Main,
    Or,
    Proc,
    Then,
    Until,
    Assign,
    Equal,
    Minus,
    Open,
    Close,
    OpenIndex,
    CloseIndex,
    Comma,
    Semicolon,
    Colon,
    Finish,
}

/// Where the token stands, if it is the plain token.
fn place(plain: PlainToken, token: Token) -> Option<At>
    ensures { result ≡ place_of plain token }
{
    match (plain, token) {
        (PlainToken::And, Token::And(at)) => Some(at),
        (PlainToken::Begin, Token::Begin(at)) => Some(at),
        (PlainToken::By, Token::By(at)) => Some(at),
        (PlainToken::Do, Token::Do(at)) => Some(at),
        (PlainToken::Else, Token::Else(at)) => Some(at),
        (PlainToken::End, Token::End(at)) => Some(at),
        (PlainToken::Int, Token::Int(at)) => Some(at),
        (PlainToken::Literal, Token::Literal(at)) => Some(at),
        (PlainToken::Main, Token::Main(at)) => Some(at),
        (PlainToken::Or, Token::Or(at)) => Some(at),
        (PlainToken::Proc, Token::Proc(at)) => Some(at),
        (PlainToken::Then, Token::Then(at)) => Some(at),
        (PlainToken::Until, Token::Until(at)) => Some(at),
        (PlainToken::Assign, Token::Assign(at)) => Some(at),
        (PlainToken::Equal, Token::Equal(at)) => Some(at),
        (PlainToken::Minus, Token::Minus(at)) => Some(at),
        (PlainToken::Open, Token::Open(at)) => Some(at),
        (PlainToken::Close, Token::Close(at)) => Some(at),
        (PlainToken::OpenIndex, Token::OpenIndex(at)) => Some(at),
        (PlainToken::CloseIndex, Token::CloseIndex(at)) => Some(at),
        (PlainToken::Comma, Token::Comma(at)) => Some(at),
        (PlainToken::Semicolon, Token::Semicolon(at)) => Some(at),
        (PlainToken::Colon, Token::Colon(at)) => Some(at),
        (PlainToken::Finish, Token::Finish(at)) => Some(at),
        _ => None,
    }
}

/// Where the plain token stands with which the tokens begin, and the tokens after it.
pub fn optional(plain: PlainToken, tokens: &[Token]) -> Option<(At, &[Token])>
    ensures { Gives (λ r. (r.0, r.1.now)) result (plain_of plain tokens.now) }
{
    match tokens {
        [first, rest @ ..] => match place(plain, *first) {
            Some(at) => Some((at, rest)),
            None => None,
        },
        [] => None,
    }
}

/// The same where the plain token has to stand.
pub fn expect(wanted: PlainToken, tokens: &[Token]) -> Result<(At, &[Token]), BuildFault>
    ensures { Tells (λ r. (r.0, r.1.now)) result (plain_of wanted tokens.now) }
{
    match optional(wanted, tokens) {
        Some(found) => Ok(found),
        None => Err(BuildFault::NoSyntax),
    }
}
