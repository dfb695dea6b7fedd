//! The first line in which two texts differ.
ghost use Rattle.std.specs.Prelude.{◌≡◌, ◌<◌, ◌≤◌, [], MatchOption, length};
ghost use Rattle.report_judge.specs.Lines.{IsFirstDifference, IsFirstLine, line_length, lines_of};

/// The first line of a text with its line feed, which the last one may lack, and what follows it; none where the text
/// is at its end.
fn next_line(text: &[u8]) -> Option<(&[u8], &[u8])>
    ensures { MatchOption result (text.now ≡ []) (λ cut. IsFirstLine text.now cut.0.now cut.1.now) }
{
    if text.is_empty() {
        return None;
    }
    Some(text.split_at(line_length(text)))
}

/// How long the first line is, with its line feed.
fn line_length(text: &[u8]) -> usize
    ensures value { result ≡ line_length text.now }
    ensures within { result ≤ length text.now }
{
    for (at, c) in text.iter().enumerate() {
        if *c == b'\n' {
            return at + 1;
        }
    }
    text.len()
}

/// The number of the first line, from 1, in which two texts differ; none where they are the same.
pub fn first_difference(one: &[u8], other: &[u8]) -> Option<u32>
    requires { length one.now < 4294967295 }
    ensures { MatchOption result (one.now ≡ other.now) (IsFirstDifference (lines_of one.now) (lines_of other.now)) }
{
    let mut number = 1;
    let mut one_rest = one;
    let mut other_rest = other;
    while let Some((one_line, one_after)) = next_line(one_rest) {
        let Some((other_line, other_after)) = next_line(other_rest) else {
            return Some(number);
        };
        if one_line != other_line {
            return Some(number);
        }
        number += 1;
        one_rest = one_after;
        other_rest = other_after;
    }
    if other_rest.is_empty() {
        None
    } else {
        Some(number)
    }
}
