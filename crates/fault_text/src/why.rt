ghost use Rattle.std.specs.Prelude.{◌≡◌, [], ◌∷◌, ◌++◌, OnOk, IfOk, codes, option_map};
ghost use Rattle.gd_io.specs.Puts.{Puts};
ghost use Rattle.trace_print.specs.FaultLine.{IsOfDeck, fault_line};
ghost use Rattle.fault_words.specs.Places.{place_of};
ghost use Rattle.fault_words.specs.Sentences.{sentence_of};
ghost use Rattle.fault_text.specs.WhyText.{caret_line, caret_under, hint_line, hint_under, place_line, pointed_line};
ghost use Rattle.fault_text.specs.WhyText.{shown_line, told_text, told_under};

use fault_words::{FaultPlace, Hint, cut_at, hint_of, line_under, place_of, sentence_of};
use gd_io::{Sink, WriteFault, put_all};
use gd_words::{List, NoMemory};
use std::alloc::Global;
use tal_tree::DeckFault;
use text_pieces::{put, put_lead, put_number, put_shown};
use trace_print::write_fault;

/// What is told of a deck's fault, up to the line that `guardian` writes.
pub fn told_text(alloc: Global, bytes: &[u8], fault: &DeckFault) -> Result<List<u8>, NoMemory>
    ensures { IfOk result (λ text. text ≡ told_text bytes.now fault.now) }
{
    let mut text = List::new(alloc);
    put_told(&mut text, fault, line_under(bytes, place_of(fault)))?;
    Ok(text)
}

/// Writes what is told of a deck's fault, and behind it the line that `guardian` writes. It takes no memory.
pub fn write_why<K: Sink>(sink: &mut K, told: &[u8], fault: &DeckFault) -> Result<(), WriteFault>
    requires { IsOfDeck fault.now }
    ensures { Puts K.held K.faults K.sure sink.old sink.new (told.now ++ fault_line fault.now) result }
{
    put_all(sink, told)?;
    write_fault(sink, fault)
}

fn put_told(text: &mut List<u8>, fault: &DeckFault, line: Option<&[u8]>) -> Result<(), NoMemory>
    ensures { OnOk result (text.new ≡ text.old ++ told_under fault.now (option_map (λ line. line.now) line.entry)) }
{
    let place = place_of(fault);
    put_sentence(text, fault)?;
    put_place(text, place)?;
    put_pointed(text, place, line)?;
    put_hint(text, hint_under(fault, line))?;
    put(text, b"guardian: ")
}

fn put_sentence(text: &mut List<u8>, fault: &DeckFault) -> Result<(), NoMemory>
    ensures { OnOk result (text.new ≡ text.old ++ codes "error: " ++ sentence_of fault.now ++ 10 ∷ []) }
{
    put(text, b"error: ")?;
    put(text, sentence_of(fault))?;
    put(text, b"\n")
}

fn put_place(text: &mut List<u8>, place: FaultPlace) -> Result<(), NoMemory>
    ensures { OnOk result (text.new ≡ text.old ++ place_line place) }
{
    match place {
        FaultPlace::Nowhere => Ok(()),
        FaultPlace::Line(number) => {
            put(text, b"line ")?;
            put_number(text, number)?;
            put(text, b":\n")
        }
        FaultPlace::Byte { line, column } => {
            put(text, b"line ")?;
            put_number(text, line)?;
            put(text, b", column ")?;
            put_number(text, u64::from(column))?;
            put(text, b":\n")
        }
    }
}

fn put_pointed(text: &mut List<u8>, place: FaultPlace, line: Option<&[u8]>) -> Result<(), NoMemory>
    ensures { OnOk result (text.new ≡ text.old ++ pointed_line place (option_map (λ line. line.now) line.entry)) }
{
    match line {
        None => Ok(()),
        Some(line) => {
            put_line(text, line)?;
            put_caret(text, place, line)
        }
    }
}

fn put_line(text: &mut List<u8>, line: &[u8]) -> Result<(), NoMemory>
    ensures { OnOk result (text.new ≡ text.old ++ shown_line line.now) }
{
    put(text, b"    ")?;
    put_shown(text, line)?;
    put(text, b"\n")
}

fn put_caret(text: &mut List<u8>, place: FaultPlace, line: &[u8]) -> Result<(), NoMemory>
    ensures { OnOk result (text.new ≡ text.old ++ caret_under place line.now) }
{
    match place {
        FaultPlace::Byte { line: _, column } => {
            let (before, _) = cut_at(line, column);
            put(text, b"    ")?;
            put_lead(text, before)?;
            put(text, b"^\n")
        }
        _ => Ok(()),
    }
}

fn hint_under(fault: &DeckFault, line: Option<&[u8]>) -> Option<Hint>
    ensures { result ≡ hint_under fault.now (option_map (λ line. line.now) line.entry) }
{
    match line {
        None => None,
        Some(line) => hint_of(fault, line),
    }
}

fn put_hint(text: &mut List<u8>, hint: Option<Hint>) -> Result<(), NoMemory>
    ensures { OnOk result (text.new ≡ text.old ++ hint_line hint) }
{
    match hint {
        None => Ok(()),
        Some(hint) => {
            put(text, b"hint: ")?;
            put(text, hint.text())?;
            put(text, b"\n")
        }
    }
}
