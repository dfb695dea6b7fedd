ghost use Rattle.std.specs.Prelude.{◌≡◌, ◌≤◌, ◌+◌, ◌++◌, length, option_map, OnOk};
ghost use Rattle.fault_words.specs.Places.{line_at};
ghost use Rattle.finding_text.specs.DeckPlace.{pair_line, says_pair, is_pair, source_text, source_under};
ghost use Rattle.deck_lines.specs.Lines.{lines_of};

use deck_lines::{Saying, next_line, saying_of};
use fault_words::{FaultPlace, line_under};
use gd_words::{List, Name, NoMemory};
use text_pieces::put_shown;

/// The number of the deck's line that declares the pair of this name, from 1; 0 where none does.
pub fn pair_line(bytes: &[u8], name: &Name) -> u64
    ensures line { result ≡ pair_line bytes.now name.now }
    ensures few { result ≤ length bytes.now }
{
    let mut text = bytes;
    let mut before: u64 = 0;
    while let Some((line, rest)) = next_line(text) {
        if says_pair(name, line) {
            return before + 1;
        }
        before += 1;
        text = rest;
    }
    0
}

fn says_pair(name: &Name, line: &[u8]) -> bool
    ensures { result ≡ says_pair name.now line.now }
{
    match saying_of(line) {
        Saying::Pair(placing) => is_pair(name, &placing.name),
        _ => false,
    }
}

fn is_pair(name: &Name, other: &Name) -> bool
    ensures { result ≡ is_pair name.now other.now }
{
    name.text() == other.text()
}

/// Puts a line of the deck as it is shown behind the text, if there is one of this number.
pub(crate) fn put_source(text: &mut List<u8>, bytes: &[u8], number: u64) -> Result<(), NoMemory>
    ensures { OnOk result (text.new ≡ text.old ++ source_text bytes.now number) }
{
    match line_under(bytes, FaultPlace::Line(number)) {
        None => Ok(()),
        Some(line) => put_shown(text, line),
    }
}
