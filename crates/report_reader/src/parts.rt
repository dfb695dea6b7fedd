//! Texts cut at a sign.
ghost use Rattle.std.specs.Prelude.{◌≡◌, ◌+◌, MatchOption, IfSome, length};
ghost use Rattle.std.specs.Option.{option_map};
ghost use Rattle.report_reader.specs.Parts.{cut_at, parts_of, parts_with, one_part, rest_after};

use deck_lines::split_before;

/// What stands before the first such sign of a text, and what follows it; none where the text hasn't the sign.
pub fn cut_at(sign: u8, text: &[u8]) -> Option<(&[u8], &[u8])>
    ensures cut { option_map (λ cut. (cut.0.now, cut.1.now)) result ≡ cut_at sign text.now }
    ensures parts { MatchOption result (parts_of sign text.now ≡ one_part text.now)
        (λ cut. parts_of sign text.now ≡ parts_with cut.0.now (parts_of sign cut.1.now)) }
    ensures lengths { IfSome result (λ cut. length cut.0.now + 1 + length cut.1.now ≡ length text.now) }
{
    let (front, rest) = split_before(text, sign);
    match rest.split_first() {
        None => None,
        Some((_, after)) => Some((front, after)),
    }
}

/// What follows the beginning of a text; none where the text doesn't begin so.
pub fn rest_after<'a>(beginning: &[u8], text: &'a [u8]) -> Option<&'a [u8]>
    ensures { option_map (λ rest. rest.now) result ≡ rest_after beginning.now text.now }
{
    text.strip_prefix(beginning)
}
