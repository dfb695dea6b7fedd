ghost use Rattle.std.specs.Prelude.{◌≡◌, ◌<◌, ◌≤◌, ◌+◌, length};
ghost use Rattle.tal_tokens.specs.Lexeme.{is_blank, pair_token, punctuation_token, sign_token, paired, symbol_begun};
ghost use Rattle.tal_tokens.specs.Lexeme.{TakesUpTo};

use crate::begun::Begun;
use crate::cursor::Cursor;
use crate::token::{At, Token};
use tal_tree::TalFault;

/// Whether the byte separates tokens.
pub fn is_blank(c: u8) -> bool
    ensures { result ≡ is_blank c }
{
    c == b' ' || c == b'\t' || c == b'\n'
}

fn pair_token(at: At, first: u8, second: u8) -> Option<Token>
    ensures { result ≡ pair_token at first second }
{
    if first == b':' && second == b'=' {
        Some(Token::Assign(at))
    } else if first == b'<' && second == b'>' {
        Some(Token::Differs(at))
    } else if first == b'<' && second == b'=' {
        Some(Token::AtMost(at))
    } else if first == b'>' && second == b'=' {
        Some(Token::AtLeast(at))
    } else {
        None
    }
}

fn punctuation_token(at: At, sign: u8) -> Option<Token>
    ensures { result ≡ punctuation_token at sign }
{
    match sign {
        b'(' => Some(Token::Open(at)),
        b')' => Some(Token::Close(at)),
        b'[' => Some(Token::OpenIndex(at)),
        b']' => Some(Token::CloseIndex(at)),
        b',' => Some(Token::Comma(at)),
        b';' => Some(Token::Semicolon(at)),
        b':' => Some(Token::Colon(at)),
        _ => None,
    }
}

fn sign_token(at: At, sign: u8) -> Option<Token>
    ensures { result ≡ sign_token at sign }
{
    match sign {
        b'<' => Some(Token::Less(at)),
        b'>' => Some(Token::Greater(at)),
        b'=' => Some(Token::Equal(at)),
        b'+' => Some(Token::Plus(at)),
        b'-' => Some(Token::Minus(at)),
        b'*' => Some(Token::Star(at)),
        b'/' => Some(Token::Slash(at)),
        _ => punctuation_token(at, sign),
    }
}

fn paired(at: At, first: u8, rest: &[u8]) -> Option<Token>
    ensures { result ≡ paired at first rest.now }
{
    match rest {
        [] => None,
        [second, ..] => pair_token(at, first, *second),
    }
}

/// The longest symbol that the text `first` and `rest` begins with.
pub fn symbol(here: Cursor, first: u8, rest: &[u8]) -> Begun
    requires room { here.offset + length rest.now + 1 < 4294967295 }
    ensures value { result ≡ symbol_begun here first rest.now }
    ensures within { TakesUpTo (length rest.now + 1) result }
{
    match paired(here.at(2), first, rest) {
        Some(token) => Begun::Whole(token, 2),
        None => match sign_token(here.at(1), first) {
            Some(token) => Begun::Whole(token, 1),
            None => Begun::Broken(TalFault::BadCharacter(here.place)),
        },
    }
}
