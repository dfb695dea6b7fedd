//! Where a deck ends that a report follows.
ghost use Rattle.std.specs.Prelude.{◌≡◌, ◌≤◌, length};
ghost use Rattle.deck_lines.specs.Lines.{words_of};
ghost use Rattle.report_reader.specs.DeckEnds.{begins_pair, deck_end, is_end, is_end_line, is_inside};

use crate::parts::cut_at;
use deck_lines::{next_word, one_word};

/// How many bytes the deck has with which the bytes begin: up to and with the line `END`, or all of them.
pub fn deck_end(bytes: &[u8]) -> usize
    ensures value { result ≡ deck_end bytes.now }
    ensures within { result ≤ length bytes.now }
{
    let mut rest = bytes;
    let mut inside = false;
    while let Some((line, after)) = cut_at(b'\n', rest) {
        rest = after;
        if is_end(inside, line) {
            return bytes.len() - rest.len();
        }
        inside = is_inside(inside, line);
    }
    bytes.len()
}

fn is_end(inside: bool, line: &[u8]) -> bool
    ensures { result ≡ is_end inside line.now }
{
    if inside { false } else { is_end_line(line) }
}

fn is_end_line(line: &[u8]) -> bool
    ensures { result ≡ is_end_line line.now }
{
    match one_word(line) {
        Some(word) => word == b"END".as_slice(),
        None => false,
    }
}

fn is_inside(inside: bool, line: &[u8]) -> bool
    ensures { result ≡ is_inside inside line.now }
{
    if inside {
        line != b".".as_slice()
    } else {
        begins_pair(line)
    }
}

fn begins_pair(line: &[u8]) -> bool
    ensures { result ≡ begins_pair (words_of line.now) }
{
    match next_word(line) {
        Some((word, _)) => word == b"pair".as_slice(),
        None => false,
    }
}
