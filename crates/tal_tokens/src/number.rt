ghost use Rattle.std.specs.Prelude.{◌≡◌, ◌<◌, ◌≤◌, ◌+◌, length, IfSome};
ghost use Rattle.std.specs.Option.{ForSome};
ghost use Rattle.tal_tokens.specs.Lexeme.{at_most, numbered, decimal_begun, octal_begun, TakesUpTo};
ghost use Rattle.tal_tree.specs.gd_words.specs.Digits.{value_from};

use crate::begun::Begun;
use crate::cursor::Cursor;
use crate::run::{digit_run, octal_run};
use crate::token::Token;
use tal_tree::TalFault;

/// The number that digits stand for in a base, where it is at most `most`.
fn number(base: u32, most: u32, digits: &[u8]) -> Option<u32>
    requires base { (1 ≤ base) × (base ≤ 10) }
    requires most { most < 65536 }
    ensures value { result ≡ at_most most (value_from base 0 digits.now) }
    ensures small { IfSome result (λ value. value < 65536) }
{
    let mut value: u32 = 0;
    for digit in digits {
        value = value * base + u32::from(digit.saturating_sub(b'0'));
        if value > most {
            return None;
        }
    }
    Some(value)
}

/// The token of a number that takes `len` bytes and is at most 65,535.
fn numbered(here: Cursor, len: usize, value: Option<u32>) -> Begun
    requires room { here.offset + len < 4294967295 }
    requires small { ForSome value (λ v. v < 65536) }
    ensures { result ≡ numbered here len value }
{
    match value {
        None => Begun::Broken(TalFault::NumberTooLarge(here.place)),
        Some(value) => Begun::Whole(
            Token::Number(here.at(len as u32), (value as u16).cast_signed()),
            len,
        ),
    }
}

/// A decimal number, with which the text begins.
pub fn decimal(here: Cursor, text: &[u8]) -> Begun
    requires room { here.offset + length text.now < 4294967295 }
    ensures value { result ≡ decimal_begun here text.now }
{
    let len = digit_run(text);
    numbered(here, len, number(10, 32767, &text[..len]))
}

/// An octal number, whose `%` stands before the text.
pub fn octal(here: Cursor, digits: &[u8]) -> Begun
    requires room { here.offset + length digits.now + 1 < 4294967295 }
    ensures value { result ≡ octal_begun here digits.now }
    ensures within { TakesUpTo (length digits.now + 1) result }
{
    let len = octal_run(digits);
    if len == 0 {
        Begun::Broken(TalFault::BadCharacter(here.place))
    } else {
        numbered(here, len + 1, number(8, 65535, &digits[..len]))
    }
}
