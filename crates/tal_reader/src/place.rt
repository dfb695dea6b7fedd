ghost use Rattle.std.specs.Prelude.{◌≡◌};
ghost use Rattle.tal_reader.specs.Places.{keyword_at, symbol_at, word_at, place_of};

use tal_tokens::{At, Token};
use tal_tree::Place;

/// Where a keyword stands.
fn keyword_at(token: &Token) -> Option<At>
    ensures { result ≡ keyword_at token.now }
{
    match token {
        Token::And(at) => Some(*at),
        Token::Begin(at) => Some(*at),
        Token::By(at) => Some(*at),
        Token::Call(at) => Some(*at),
        Token::Do(at) => Some(*at),
        Token::DownTo(at) => Some(*at),
        Token::Else(at) => Some(*at),
        Token::End(at) => Some(*at),
        Token::For(at) => Some(*at),
        Token::If(at) => Some(*at),
        Token::Int(at) => Some(*at),
        Token::Literal(at) => Some(*at),
        Token::Main(at) => Some(*at),
        Token::Not(at) => Some(*at),
        Token::Or(at) => Some(*at),
        Token::Proc(at) => Some(*at),
        Token::Return(at) => Some(*at),
        Token::Then(at) => Some(*at),
        Token::To(at) => Some(*at),
        Token::Until(at) => Some(*at),
        Token::While(at) => Some(*at),
        _ => None,
    }
}

/// Where a symbol or the end stands.
fn symbol_at(token: &Token) -> Option<At>
    ensures { result ≡ symbol_at token.now }
{
    match token {
        Token::Assign(at) => Some(*at),
        Token::Differs(at) => Some(*at),
        Token::AtMost(at) => Some(*at),
        Token::AtLeast(at) => Some(*at),
        Token::Less(at) => Some(*at),
        Token::Greater(at) => Some(*at),
        Token::Equal(at) => Some(*at),
        Token::Plus(at) => Some(*at),
        Token::Minus(at) => Some(*at),
        Token::Star(at) => Some(*at),
        Token::Slash(at) => Some(*at),
        Token::Open(at) => Some(*at),
        Token::Close(at) => Some(*at),
        Token::OpenIndex(at) => Some(*at),
        Token::CloseIndex(at) => Some(*at),
        Token::Comma(at) => Some(*at),
        Token::Semicolon(at) => Some(*at),
        Token::Colon(at) => Some(*at),
        Token::Finish(at) => Some(*at),
        _ => None,
    }
}

/// Where a name, a number or a string stands.
fn word_at(token: &Token) -> Option<At>
    ensures { result ≡ word_at token.now }
{
    match token {
        Token::Name(at, _) => Some(*at),
        Token::Number(at, _) => Some(*at),
        Token::Process(at, _) => Some(*at),
        Token::Receive(at) => Some(*at),
        Token::Text(at) => Some(*at),
        _ => None,
    }
}

/// Where a token stands.
pub fn place_of(token: &Token) -> Place
    ensures { result ≡ place_of token.now }
{
    let beginning = At {
        place: Place { line: 1, column: 1 },
        start: 0,
        end: 0,
    };
    let at = keyword_at(token)
        .or(symbol_at(token))
        .or(word_at(token))
        .unwrap_or(beginning);
    at.place
}
