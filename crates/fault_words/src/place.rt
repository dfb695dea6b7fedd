ghost use Rattle.std.specs.Prelude.{◌≡◌, option_map};
ghost use Rattle.fault_words.specs.Places.{in_program, last_line, line_at, line_under, place_in_program, place_of};

use deck_lines::next_line;
use tal_tree::{DeckFault, Place, TalFault};

/// Where a fault stands in a deck. Lines and columns are from 1, and columns count bytes.
#[derive(Clone, Copy, PartialEq, Eq)]
pub enum FaultPlace {
    Nowhere,
    Line(u64),
    Byte { line: u64, column: u32 },
}

/// Where a fault stands. That of a program stands on the deck's line, and not on its pair's.
pub fn place_of(fault: &DeckFault) -> FaultPlace
    ensures { result ≡ place_of fault.now }
{
    match fault {
        DeckFault::Line(line) => FaultPlace::Line(u64::from(*line)),
        DeckFault::Program(pair, fault) => place_in_program(*pair, fault),
        DeckFault::NameTwice(line) => FaultPlace::Line(u64::from(*line)),
        DeckFault::UnknownName(line) => FaultPlace::Line(u64::from(*line)),
        DeckFault::SameProcessor(line) => FaultPlace::Line(u64::from(*line)),
        DeckFault::NoProcessor(line) => FaultPlace::Line(u64::from(*line)),
        DeckFault::Limit(line, _) => FaultPlace::Line(u64::from(*line)),
        DeckFault::NoEnd(count) => last_line(*count),
        DeckFault::OpensItself(line) => FaultPlace::Line(u64::from(*line)),
        DeckFault::TooLong => FaultPlace::Nowhere,
        DeckFault::NoMemory(_) => FaultPlace::Nowhere,
    }
}

fn last_line(count: u32) -> FaultPlace
    ensures { result ≡ last_line count }
{
    if count == 0 {
        FaultPlace::Nowhere
    } else {
        FaultPlace::Line(u64::from(count))
    }
}

fn place_in_program(pair: u32, fault: &TalFault) -> FaultPlace
    ensures { result ≡ place_in_program pair fault.now }
{
    match fault {
        TalFault::BadCharacter(place) => in_program(pair, place),
        TalFault::NumberTooLarge(place) => in_program(pair, place),
        TalFault::OpenString(place) => in_program(pair, place),
        TalFault::NameTooLong(place) => in_program(pair, place),
        TalFault::Expected(place) => in_program(pair, place),
        TalFault::Unknown(place) => in_program(pair, place),
        TalFault::Twice(place) => in_program(pair, place),
        TalFault::WrongKind(place) => in_program(pair, place),
        TalFault::NotBefore(place) => in_program(pair, place),
        TalFault::Prologue(place) => in_program(pair, place),
        TalFault::Limit(_, place) => in_program(pair, place),
        TalFault::NoMain(place) => in_program(pair, place),
        TalFault::NoMemory(_) => FaultPlace::Nowhere,
    }
}

fn in_program(pair: u32, place: &Place) -> FaultPlace
    ensures { result ≡ in_program pair place.now }
{
    FaultPlace::Byte {
        line: u64::from(pair) + u64::from(place.line),
        column: place.column,
    }
}

/// The deck's line on which a fault stands; none where it stands on no line, or the deck has no such line.
pub fn line_under(bytes: &[u8], place: FaultPlace) -> Option<&[u8]>
    ensures { option_map (λ line. line.now) result ≡ line_under bytes.now place }
{
    match place {
        FaultPlace::Nowhere => None,
        FaultPlace::Line(number) => line_at(bytes, number),
        FaultPlace::Byte { line, column: _ } => line_at(bytes, line),
    }
}

/// The line of this number, from 1.
fn line_at(bytes: &[u8], number: u64) -> Option<&[u8]>
    ensures { option_map (λ line. line.now) result ≡ line_at bytes.now number }
{
    let mut text = bytes;
    let mut before = number.saturating_sub(1);
    while let Some((line, rest)) = next_line(text) {
        if before == 0 {
            return Some(line);
        }
        before -= 1;
        text = rest;
    }
    None
}
