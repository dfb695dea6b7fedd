ghost use Rattle.std.specs.Prelude.{◌≡◌, ◌+◌, ◌≤◌, ◌++◌, length};
ghost use Rattle.gd_io.specs.Puts.{Puts};
ghost use Rattle.trace_print.specs.FaultLine.{IsOfDeck, fault_line, fault_numbers};
ghost use Rattle.trace_print.specs.NumbersText.{numbers_text};
ghost use Rattle.trace_print.specs.TalNumbers.{IsOfText, placed, tal_numbers};

use crate::line::Line;
use gd_io::{Sink, WriteFault, put_all};
use tal_tree::{DeckFault, Place, TalFault};

/// Writes the line of a deck's fault. It takes no memory.
pub fn write_fault<K: Sink>(sink: &mut K, fault: &DeckFault) -> Result<(), WriteFault>
    requires { IsOfDeck fault.now }
    ensures { Puts K.held K.faults K.sure sink.old sink.new (fault_line fault.now) result }
{
    let mut line = Line::new();
    line.push(b"DECK");
    push_fault(&mut line, fault);
    line.push(b"\n");
    put_all(sink, line.bytes())
}

fn push_fault(line: &mut Line, fault: &DeckFault)
    requires room { length line.old + 126 ≤ 512 }
    requires told { IsOfDeck fault.now }
    ensures text { line.new ≡ line.old ++ numbers_text (fault_numbers fault.now) }
    ensures len { length line.new ≤ length line.old + 126 }
{
    match fault {
        DeckFault::Line(at) => line.numbers(&[*at, 1]),
        DeckFault::Program(at, fault) => {
            line.numbers(&[*at, 2]);
            push_tal_fault(line, fault);
        }
        DeckFault::NameTwice(at) => line.numbers(&[*at, 3]),
        DeckFault::UnknownName(at) => line.numbers(&[*at, 4]),
        DeckFault::SameProcessor(at) => line.numbers(&[*at, 5]),
        DeckFault::NoProcessor(at) => line.numbers(&[*at, 6]),
        DeckFault::Limit(at, limit) => line.numbers(&[*at, 7, u32::from(limit.number())]),
        DeckFault::NoEnd(at) => line.numbers(&[*at, 8]),
        DeckFault::OpensItself(at) => line.numbers(&[*at, 9]),
        DeckFault::TooLong => line.numbers(&[0, 10]),
        DeckFault::NoMemory(_) => unreachable!(),
    }
}

fn push_tal_fault(line: &mut Line, fault: &TalFault)
    requires room { length line.old + 84 ≤ 512 }
    requires told { IsOfText fault.now }
    ensures text { line.new ≡ line.old ++ numbers_text (tal_numbers fault.now) }
    ensures len { length line.new ≤ length line.old + 84 }
{
    match fault {
        TalFault::BadCharacter(place) => push_placed(line, 1, place),
        TalFault::NumberTooLarge(place) => push_placed(line, 2, place),
        TalFault::OpenString(place) => push_placed(line, 3, place),
        TalFault::NameTooLong(place) => push_placed(line, 4, place),
        TalFault::Expected(place) => push_placed(line, 5, place),
        TalFault::Unknown(place) => push_placed(line, 6, place),
        TalFault::Twice(place) => push_placed(line, 7, place),
        TalFault::WrongKind(place) => push_placed(line, 8, place),
        TalFault::NotBefore(place) => push_placed(line, 9, place),
        TalFault::Prologue(place) => push_placed(line, 10, place),
        TalFault::Limit(limit, place) => {
            line.numbers(&[11, place.line, place.column, u32::from(limit.number())]);
        }
        TalFault::NoMain(place) => push_placed(line, 12, place),
        TalFault::NoMemory(_) => unreachable!(),
    }
}

fn push_placed(line: &mut Line, number: u32, place: &Place)
    requires { length line.old + 63 ≤ 512 }
    ensures text { line.new ≡ line.old ++ numbers_text (placed number place.now) }
    ensures len { length line.new ≤ length line.old + 63 }
{
    line.numbers(&[number, place.line, place.column]);
}
