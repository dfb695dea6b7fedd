ghost use Rattle.std.specs.Prelude.{◌≡◌, ◌≤◌, length, nat_eq, Some, refl};
ghost use Rattle.std.specs.Cmp.{partial_equiv_from_equiv, partial_order_from_agreeing_total};
ghost use Rattle.std.specs.Cmp.Lexicographic.{pointwise, nat_list_eq_equiv};
ghost use Rattle.std.specs.List.{list_all};
ghost use Rattle.gd_words.specs.IdentOrder.{front, ident_cmp, ident_total, ident_ties};
ghost use Rattle.gd_words.specs.Spelling.{is_ident, is_ident_sign, ident_of};

use crate::spelling::upper_padded;
use std::cmp::Ordering;
use std::marker::Model;

/// A name of TAL: 1 to 31 letters, digits, `_` or `^`, the first no digit. Letters are kept in upper case.
#[derive(Clone, Copy)]
pub struct Ident {
    bytes: [u8; 31],
    len: usize,
}

impl Model for Ident {
    ghost use Rattle.std.specs.Prelude.{◌≡◌, ◌≤◌, List, ℕ, length, take};
    ghost use Rattle.gd_words.specs.Spelling.{text_with_zeros};

    ghost Value = { List ℕ };

    ghost view = { λ ident. take ident.len ident.bytes };

    ghost invariant = { λ ident. (ident.len ≤ 31) × (ident.bytes ≡ text_with_zeros 31 (take ident.len ident.bytes)) };

    ghost inverse = { λ text. record { bytes = text_with_zeros 31 text; len = length text } };

    ghost use Rattle.gd_words.specs.PaddedIdent.{ident_again};

    ghost inverse_ok = { λ ident h. ident_again ident h.0 h.1 };
}

impl Ident {
    /// The identifier that a text spells.
    pub fn read(text: &[u8]) -> Option<Ident>
        ensures { result ≡ ident_of text.now }
    {
        if is_ident(text) {
            Some(Ident {
                bytes: upper_padded(text),
                len: text.len(),
            })
        } else {
            None
        }
    }

    /// The first eight signs as one number, with zeros after the last sign.
    fn front(&self) -> u64
        ensures { result ≡ front self.now }
    {
        let bytes = &self.bytes;
        u64::from_be_bytes([
            bytes[0], bytes[1], bytes[2], bytes[3], bytes[4], bytes[5], bytes[6], bytes[7],
        ])
    }

    /// The identifier as it is kept.
    pub fn text(&self) -> &[u8]
        ensures value { result.now ≡ self.now }
        ensures short { length result.now ≤ 31 }
    {
        &self.bytes[..self.len]
    }
}

impl PartialEq for Ident {
    ghost eq = { pointwise nat_eq };

    ghost laws = { partial_equiv_from_equiv nat_list_eq_equiv };

    fn eq(&self, other: &Ident) -> bool {
        self.cmp(other).is_eq()
    }
}

impl Eq for Ident {
    ghost laws = { nat_list_eq_equiv };
}

impl PartialOrd for Ident {
    ghost partial_cmp = { λ a b. Some (ident_cmp a b) };

    ghost laws = { partial_order_from_agreeing_total ident_cmp ident_total (λ a b. refl) ident_ties };

    fn partial_cmp(&self, other: &Ident) -> Option<Ordering> {
        Some(self.cmp(other))
    }
}

// The first eight signs, which mostly decide, are compared at once.
impl Ord for Ident {
    ghost cmp = { ident_cmp };

    ghost total = { ident_total };

    ghost matches_partial_cmp = { λ a b. refl };

    ghost matches_eq = { ident_ties };

    fn cmp(&self, other: &Ident) -> Ordering {
        let found = self.front().cmp(&other.front());
        if found.is_ne() {
            return found;
        }
        self.text().cmp(other.text())
    }
}

/// Whether the byte may stand in an identifier: a letter, a digit, `_` or `^`.
pub fn is_ident_sign(c: u8) -> bool
    ensures { result ≡ is_ident_sign c }
{
    c.is_ascii_alphanumeric() || c == b'_' || c == b'^'
}

fn are_all_ident_signs(text: &[u8]) -> bool
    ensures { result ≡ list_all is_ident_sign text.now }
{
    text.iter().all(|c| is_ident_sign(*c))
}

fn is_ident(text: &[u8]) -> bool
    ensures { result ≡ is_ident text.now }
{
    match text {
        [] => false,
        [first, rest @ ..] => !first.is_ascii_digit()
            && rest.len() <= 30
            && are_all_ident_signs(text),
    }
}
