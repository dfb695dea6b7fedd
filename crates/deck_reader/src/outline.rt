ghost use Rattle.std.specs.Prelude.{◌≡◌, ◌≤◌, length};
ghost use Rattle.name_table.specs.Entries.{place_of};
ghost use Rattle.deck_reader.specs.LineFaults.{is_new, outline_with, process_with};
ghost use Rattle.deck_reader.specs.EventLineOf.{is_mirror, mirror_of};
ghost use Rattle.deck_reader.specs.Names.{is_process};
ghost use Rattle.gd_words.specs.declared.limits.TheConstants.{MOST_PROCESSES};

use gd_words::{List, Name, Words};
use name_table::NameTable;
use schedule::Line;
use std::alloc::Global;

/// The name of a process and the processors of its two copies.
#[derive(Drop)]
pub struct Heading {
    pub name: Name,
    pub primary: u8,
    pub backup: u8,
}

/// The text of a program, and the number of its pair's line, counted from 1.
#[derive(Drop)]
pub struct ProgramLines {
    pub line: u32,
    pub text: List<u8>,
}

/// What follows the heading of a process.
#[derive(Drop)]
pub enum Body {
    Disc { sectors: u8, mirrored: bool },
    Pair(ProgramLines),
}

/// What stands under the name of a process: the processors of its two copies, and what follows its heading.
#[derive(Drop)]
pub struct ProcessLines {
    pub primary: u8,
    pub backup: u8,
    pub body: Body,
}

/// What stands under the name of a terminal: the number of its line, the process that it asks, and its requests.
#[derive(Drop)]
pub struct TerminalLines {
    pub line: u32,
    pub target: Name,
    pub requests: List<Words>,
}

/// How many single events and how many rounds event lines ask for together.
#[derive(Clone, Copy, Drop)]
pub struct Sums {
    pub singles: u32,
    pub rounds: u32,
}

/// The event lines whose names are there, what all event lines ask for, and the number of the first that names what
/// isn't there.
#[derive(Drop)]
pub struct EventLines {
    pub lines: List<Line>,
    pub sums: Sums,
    pub unknown: Option<u32>,
}

/// What the lines of a deck say, before names are looked up and programs are read.
#[derive(Drop)]
pub struct Outline {
    pub processors: u8,
    pub processes: NameTable<ProcessLines>,
    pub terminals: NameTable<TerminalLines>,
    pub events: EventLines,
}

impl Outline {
    /// A deck of so many processors, and nothing else.
    pub fn new(alloc: Global, processors: u8) -> Outline
        ensures { result ≡ outline_with processors }
    {
        let events = EventLines {
            lines: List::new(alloc),
            sums: Sums {
                singles: 0,
                rounds: 0,
            },
            unknown: None,
        };
        Outline {
            processors,
            processes: NameTable::new(alloc),
            terminals: NameTable::new(alloc),
            events,
        }
    }
}

/// A process under the name of its heading.
pub fn process_with(heading: Heading, body: Body) -> (Name, ProcessLines)
    ensures { result ≡ process_with heading body }
{
    let Heading {
        name,
        primary,
        backup,
    } = heading;
    let lines = ProcessLines {
        primary,
        backup,
        body,
    };
    (name, lines)
}

/// Whether no process and no terminal has the name.
pub fn is_new(outline: &Outline, name: &Name) -> bool
    ensures { result ≡ is_new outline.now name.now }
{
    !outline.processes.contains(name) && !outline.terminals.contains(name)
}

/// Where the name stands among at most 16.
pub fn place_of<T>(table: &NameTable<T>, name: &Name) -> Option<u8>
    requires few { length table.now ≤ MOST_PROCESSES }
    ensures { result ≡ place_of table.now name.now }
{
    let place = table.place_of(name)?;
    Some(place as u8)
}

/// Where the mirrored disc of this name stands among at most 16.
pub fn mirror_of(processes: &NameTable<ProcessLines>, name: &Name) -> Option<u8>
    requires few { length processes.now ≤ MOST_PROCESSES }
    ensures { result ≡ mirror_of processes.now name.now }
{
    let place = place_of(processes, name)?;
    let lines = processes.at(usize::from(place))?;
    if is_mirror(&lines.body) {
        Some(place)
    } else {
        None
    }
}

/// Whether this follows the heading of a mirrored disc.
fn is_mirror(body: &Body) -> bool
    ensures { result ≡ is_mirror body.now }
{
    match body {
        Body::Disc {
            sectors: _,
            mirrored,
        } => *mirrored,
        Body::Pair(_) => false,
    }
}

/// Whether a process has the name.
pub fn is_process(processes: &NameTable<ProcessLines>, name: &Name) -> bool
    ensures { result ≡ is_process processes.now name.now }
{
    processes.place_of(name).is_some()
}
