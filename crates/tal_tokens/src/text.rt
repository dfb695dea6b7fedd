ghost use Rattle.std.specs.Prelude.{◌≡◌, ◌<◌, ◌≤◌, ◌+◌, length, map, codes};
ghost use Rattle.std.specs.List.{position};
ghost use Rattle.std.specs.Char.{to_ascii_lowercase};
ghost use Rattle.tal_tokens.specs.Lexeme.{same, is_string_end, text_token, string_begun, TakesUpTo};

use crate::begun::Begun;
use crate::cursor::Cursor;
use crate::token::{At, Token};
use tal_tree::{Name, TalFault};

fn is_receive(text: &[u8]) -> bool
    ensures { result ≡ same (map to_ascii_lowercase text.now) (codes "$receive") }
{
    text.eq_ignore_ascii_case(b"$receive")
}

/// The token of a string.
fn text_token(at: At, text: &[u8]) -> Token
    ensures { result ≡ text_token at text.now }
{
    if is_receive(text) {
        Token::Receive(at)
    } else {
        match Name::read(text) {
            Some(name) => Token::Process(at, name),
            None => Token::Text(at),
        }
    }
}

/// Where a string that begins before the text ends, or its line does.
fn string_end(rest: &[u8]) -> Option<usize>
    ensures { result ≡ position is_string_end rest.now }
{
    rest.iter().position(|c| *c == b'"' || *c == b'\n')
}

/// A string, whose first quote stands before the text.
pub fn string(here: Cursor, rest: &[u8]) -> Begun
    requires room { here.offset + length rest.now + 1 < 4294967295 }
    ensures value { result ≡ string_begun here rest.now }
    ensures within { TakesUpTo (length rest.now + 1) result }
{
    match string_end(rest) {
        None => Begun::Broken(TalFault::OpenString(here.place)),
        Some(k) => {
            if rest[k] == b'"' {
                let len = k + 2;
                Begun::Whole(text_token(here.at(len as u32), &rest[..k]), len)
            } else {
                Begun::Broken(TalFault::OpenString(here.place))
            }
        }
    }
}
