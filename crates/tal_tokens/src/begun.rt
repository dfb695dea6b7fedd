ghost use Rattle.std.specs.Prelude.{◌≡◌, ◌<◌, ◌≤◌, ◌+◌, length};

use crate::comment::comment;
use crate::cursor::Cursor;
use crate::number::{decimal, octal};
use crate::symbol::{is_blank, symbol};
use crate::text::string;
use crate::token::Token;
use crate::word::name;
use tal_tree::{TalFault, is_ident_sign};

/// What a text begins with: so many bytes that separate tokens, a token of so many bytes, or what no token begins with.
#[derive(Clone, Copy, PartialEq, Eq)]
pub enum Begun {
    Gap(usize),
    Whole(Token, usize),
    Broken(TalFault),
}

impl Begun {
    ghost use Rattle.tal_tokens.specs.Lexeme.{begun_of, TakesUpTo};

    /// What a text that isn't empty begins with.
    pub fn of(here: Cursor, text: &[u8]) -> Begun
        requires some { 0 < length text.now }
        requires room { here.offset + length text.now < 4294967295 }
        ensures value { result ≡ begun_of here text.now }
        ensures within { TakesUpTo (length text.now) result }
    {
        match text {
            [] => Begun::Gap(1),
            [first, rest @ ..] => {
                if is_blank(*first) {
                    Begun::Gap(1)
                } else if *first == b'!' {
                    Begun::Gap(comment(rest))
                } else if first.is_ascii_digit() {
                    decimal(here, text)
                } else if is_ident_sign(*first) {
                    name(here, text)
                } else if *first == b'%' {
                    octal(here, rest)
                } else if *first == b'"' {
                    string(here, rest)
                } else {
                    symbol(here, *first, rest)
                }
            }
        }
    }
}
