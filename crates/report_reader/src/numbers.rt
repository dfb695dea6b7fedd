//! Numbers and words as a report writes them.
ghost use Rattle.std.specs.Prelude.{◌≡◌, Some, None, if◌then◌else◌, nat_le};
ghost use Rattle.report_reader.specs.Numbers.{begins_with_zero, is_numeral, is_plain, is_plain_word, is_word};
ghost use Rattle.report_reader.specs.Numbers.{number_told, word_count};
ghost use Rattle.report_reader.specs.Numbers.{are_words};
ghost use Rattle.report_reader.specs.Parts.{parts_of};

use crate::parts::cut_at;
use deck_lines::numbers::{are_digits, digits_value, word_of};

/// A number of 32 bits in decimal digits, without zeros before it.
pub fn number_told(text: &[u8]) -> Option<u32>
    ensures { result ≡ number_told text.now }
{
    if is_numeral(text) {
        small(digits_value(text))
    } else {
        None
    }
}

fn small(value: u64) -> Option<u32>
    ensures { result ≡ if nat_le value 4294967295 then Some value else None }
{
    if value <= 4_294_967_295 {
        Some(value as u32)
    } else {
        None
    }
}

fn is_numeral(text: &[u8]) -> bool
    ensures { result ≡ is_numeral text.now }
{
    are_digits(10, text) && is_plain(text)
}

/// Whether no zero stands before other digits.
fn is_plain(digits: &[u8]) -> bool
    ensures { result ≡ is_plain digits.now }
{
    !begins_with_zero(digits) || digits.len() == 1
}

fn begins_with_zero(digits: &[u8]) -> bool
    ensures { result ≡ begins_with_zero digits.now }
{
    match digits {
        [] => false,
        [first, ..] => *first == b'0',
    }
}

/// Whether a text is a word of 16 bits in decimal digits, without zeros before it.
pub fn is_word(text: &[u8]) -> bool
    ensures { result ≡ is_word text.now }
{
    is_plain_word(text) && word_of(text).is_some()
}

fn is_plain_word(text: &[u8]) -> bool
    ensures { result ≡ is_plain_word text.now }
{
    match text {
        [] => true,
        [b'-', digits @ ..] => !begins_with_zero(digits),
        _ => is_plain(text),
    }
}

/// How many words a text has, each after a space; none where it is no such text.
pub fn word_count(text: &[u8]) -> Option<usize>
    ensures { result ≡ word_count text.now }
{
    match cut_at(b' ', text) {
        None => { if text.is_empty() { Some(0) } else { None } }
        Some((first, words)) => { if first.is_empty() { count(words) } else { None } }
    }
}

/// How many words a text has, a space between them; none where one is no word.
fn count(text: &[u8]) -> Option<usize>
    ensures { result ≡ are_words (parts_of 32 text.now) }
{
    let mut rest = text;
    let mut count: usize = 0;
    while let Some((word, after)) = cut_at(b' ', rest) {
        if !is_word(word) {
            return None;
        }
        count += 1;
        rest = after;
    }
    if is_word(rest) { Some(count + 1) } else { None }
}
