ghost use Rattle.std.specs.Prelude.{◌≡◌, ◌<◌, ◌≤◌, length, IfOk, IfErr};
ghost use Rattle.deck_reader.specs.Decks.{AreProcessesOf, IsKindOf, IsProcessOf};
ghost use Rattle.deck_reader.specs.Names.{pairs_misnamed};
ghost use Rattle.deck_reader.specs.Refusals.{IsBreachFault, IsFirstProgramFault, IsOwnFault, IsRefusedAs, Tells};
ghost use Rattle.deck_reader.specs.Refusals.{fault_at};
ghost use Rattle.deck_reader.specs.Sizes.{body_size, breach_size, text_size};

use crate::line_fault::LineFault;
use crate::names::{NameFault, first_of, process_misnamed};
use crate::outline::{Body, ProcessLines};
use crate::step::Breach;
use gd_words::{List, Name};
use name_table::NameTable;
use std::alloc::Global;
use tal_laws::read_program;
use tal_tree::{DeckFault, Kind, ProcessSpec, TalFault};

/// Processes whose programs are read, and the first line of them that names what isn't there.
#[derive(Drop)]
pub struct ReadProcesses {
    pub specs: List<ProcessSpec>,
    pub misnamed: Option<NameFault>,
}

/// The processes of their lines.
pub fn processes_of(
    alloc: Global,
    lines: &NameTable<ProcessLines>,
) -> Result<ReadProcesses, DeckFault>
    requires short { text_size lines.now < 4294967295 }
    ensures ok { IfOk result (λ read. AreProcessesOf lines.now read.specs) }
    ensures named { IfOk result (λ read. read.misnamed ≡ pairs_misnamed lines.now lines.now read.specs) }
    ensures err { IfErr result (λ fault. Tells (IsFirstProgramFault lines.now) fault) }
{
    let mut specs = List::new(alloc);
    let mut misnamed = None;
    for (name, process) in lines.iter() {
        match process_of(alloc, name, process) {
            Err(fault) => return Err(fault),
            Ok(spec) => {
                let one = process_misnamed(lines, name, &process.body, &spec.what);
                misnamed = first_of(misnamed, one);
                specs.push(spec)?;
            }
        }
    }
    Ok(ReadProcesses { specs, misnamed })
}

/// The process of its lines.
fn process_of(alloc: Global, name: &Name, lines: &ProcessLines) -> Result<ProcessSpec, DeckFault>
    requires short { body_size lines.now.body < 4294967295 }
    ensures ok { IfOk result (λ process. IsProcessOf (name.now, lines.now) process) }
    ensures err { IfErr result (λ fault. Tells (IsRefusedAs lines.now.body) fault) }
{
    let what = kind_of(alloc, &lines.body)?;
    Ok(ProcessSpec {
        name: *name,
        primary: lines.primary,
        backup: lines.backup,
        what,
    })
}

/// What a process is; the program of a pair is read.
fn kind_of(alloc: Global, body: &Body) -> Result<Kind, DeckFault>
    requires short { body_size body.now < 4294967295 }
    ensures ok { IfOk result (λ kind. IsKindOf body.now kind) }
    ensures err { IfErr result (λ fault. Tells (IsRefusedAs body.now) fault) }
{
    match body {
        Body::Disc { sectors, mirrored } => Ok(Kind::Disc {
            sectors: *sectors,
            mirrored: *mirrored,
        }),
        Body::Pair(lines) => match read_program(alloc, lines.text.as_slice()) {
            Ok(program) => Ok(Kind::Pair(program)),
            Err(TalFault::NoMemory(memory)) => Err(DeckFault::NoMemory(memory)),
            Err(fault) => Err(DeckFault::Program(lines.line, fault)),
        },
    }
}

/// The fault of a deck in which a line can't stand.
pub fn breach_fault(alloc: Global, breach: &Breach) -> DeckFault
    requires short { breach_size breach.now < 4294967295 }
    ensures { Tells (IsBreachFault breach.now) result }
{
    match processes_of(alloc, &breach.processes) {
        Err(fault) => fault,
        Ok(_) => own_fault(alloc, breach),
    }
}

/// The fault of that line, or of its program.
fn own_fault(alloc: Global, breach: &Breach) -> DeckFault
    requires short { breach_size breach.now < 4294967295 }
    ensures { Tells (IsOwnFault breach.now.own (fault_at breach.now.line breach.now.why)) result }
{
    match &breach.own {
        None => fault_at(breach.line, breach.why),
        Some(lines) => match read_program(alloc, lines.text.as_slice()) {
            Ok(_) => fault_at(breach.line, breach.why),
            Err(TalFault::NoMemory(memory)) => DeckFault::NoMemory(memory),
            Err(fault) => DeckFault::Program(lines.line, fault),
        },
    }
}

/// The fault of a line.
fn fault_at(number: u32, why: LineFault) -> DeckFault
    ensures { result ≡ fault_at number why }
{
    match why {
        LineFault::Form => DeckFault::Line(number),
        LineFault::NameTwice => DeckFault::NameTwice(number),
        LineFault::SameProcessor => DeckFault::SameProcessor(number),
        LineFault::NoProcessor => DeckFault::NoProcessor(number),
        LineFault::Limit(limit) => DeckFault::Limit(number, limit),
        LineFault::NoEnd => DeckFault::NoEnd(number),
    }
}
