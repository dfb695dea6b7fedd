ghost use Rattle.std.specs.Prelude.{◌≡◌, ◌≤◌, length};
ghost use Rattle.gd_words.specs.Spelling.{is_name_tail, is_name, name_of};

use crate::spelling::{are_all_alphanumeric, upper_padded};
use std::marker::Model;

/// The name of a process or a terminal: `$` and one to five letters or digits, of which the first is a letter.
/// Letters are kept in upper case.
#[derive(Clone, Copy, PartialEq, Eq, Hash)]
pub struct Name {
    bytes: [u8; 6],
    len: usize,
}

impl Model for Name {
    ghost use Rattle.std.specs.Prelude.{◌≡◌, ◌≤◌, List, ℕ, length, take};
    ghost use Rattle.gd_words.specs.Spelling.{text_with_zeros};

    ghost Value = { List ℕ };

    ghost view = { λ name. take name.len name.bytes };

    ghost invariant = { λ name. (name.len ≤ 6) × (name.bytes ≡ text_with_zeros 6 (take name.len name.bytes)) };

    ghost inverse = { λ text. record { bytes = text_with_zeros 6 text; len = length text } };

    ghost use Rattle.gd_words.specs.PaddedName.{name_again};

    ghost inverse_ok = { λ name h. name_again name h.0 h.1 };
}

impl Name {
    /// The name that a text spells.
    pub fn read(text: &[u8]) -> Option<Name>
        ensures { result ≡ name_of text.now }
    {
        if is_name(text) {
            Some(Name {
                bytes: upper_padded(text),
                len: text.len(),
            })
        } else {
            None
        }
    }

    /// The name as it is kept, `$` first.
    pub fn text(&self) -> &[u8]
        ensures value { result.now ≡ self.now }
        ensures short { length result.now ≤ 6 }
    {
        &self.bytes[..self.len]
    }
}

fn is_name(text: &[u8]) -> bool
    ensures value { result ≡ is_name text.now }
{
    match text {
        [b'$', tail @ ..] => is_name_tail(tail),
        _ => false,
    }
}

fn is_name_tail(tail: &[u8]) -> bool
    ensures { result ≡ is_name_tail tail.now }
{
    match tail {
        [] => false,
        [first, rest @ ..] => first.is_ascii_alphabetic()
            && rest.len() <= 4
            && are_all_alphanumeric(rest),
    }
}
