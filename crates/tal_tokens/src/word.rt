ghost use Rattle.std.specs.Prelude.{◌≡◌, ◌<◌, ◌+◌, length};
ghost use Rattle.tal_tokens.specs.Lexeme.{same, keyword_first, keyword_second, keyword_third, word_token, name_begun};

use crate::begun::Begun;
use crate::cursor::Cursor;
use crate::run::name_run;
use crate::token::{At, Token};
use tal_tree::{Ident, TalFault};

fn is(word: &[u8], text: &[u8]) -> bool
    ensures { result ≡ same word.now text.now }
{
    word == text
}

fn keyword_first(word: &[u8], at: At) -> Option<Token>
    ensures { result ≡ keyword_first at word.now }
{
    if is(word, b"AND") {
        Some(Token::And(at))
    } else if is(word, b"BEGIN") {
        Some(Token::Begin(at))
    } else if is(word, b"BY") {
        Some(Token::By(at))
    } else if is(word, b"CALL") {
        Some(Token::Call(at))
    } else if is(word, b"DO") {
        Some(Token::Do(at))
    } else if is(word, b"DOWNTO") {
        Some(Token::DownTo(at))
    } else if is(word, b"ELSE") {
        Some(Token::Else(at))
    } else {
        None
    }
}

fn keyword_second(word: &[u8], at: At) -> Option<Token>
    ensures { result ≡ keyword_second at word.now }
{
    if is(word, b"END") {
        Some(Token::End(at))
    } else if is(word, b"FOR") {
        Some(Token::For(at))
    } else if is(word, b"IF") {
        Some(Token::If(at))
    } else if is(word, b"INT") {
        Some(Token::Int(at))
    } else if is(word, b"LITERAL") {
        Some(Token::Literal(at))
    } else if is(word, b"MAIN") {
        Some(Token::Main(at))
    } else if is(word, b"NOT") {
        Some(Token::Not(at))
    } else {
        None
    }
}

fn keyword_third(word: &[u8], at: At) -> Option<Token>
    ensures { result ≡ keyword_third at word.now }
{
    if is(word, b"OR") {
        Some(Token::Or(at))
    } else if is(word, b"PROC") {
        Some(Token::Proc(at))
    } else if is(word, b"RETURN") {
        Some(Token::Return(at))
    } else if is(word, b"THEN") {
        Some(Token::Then(at))
    } else if is(word, b"TO") {
        Some(Token::To(at))
    } else if is(word, b"UNTIL") {
        Some(Token::Until(at))
    } else if is(word, b"WHILE") {
        Some(Token::While(at))
    } else {
        None
    }
}

/// The token of a word.
fn word_token(at: At, word: Ident) -> Token
    ensures { result ≡ word_token at word }
{
    let text = word.text();
    keyword_first(text, at)
        .or(keyword_second(text, at).or(keyword_third(text, at)))
        .unwrap_or(Token::Name(at, word))
}

/// The name or keyword that the text begins with.
pub fn name(here: Cursor, text: &[u8]) -> Begun
    requires room { here.offset + length text.now < 4294967295 }
    ensures value { result ≡ name_begun here text.now }
{
    let len = name_run(text);
    match Ident::read(&text[..len]) {
        None => Begun::Broken(TalFault::NameTooLong(here.place)),
        Some(word) => Begun::Whole(word_token(here.at(len as u32), word), len),
    }
}
