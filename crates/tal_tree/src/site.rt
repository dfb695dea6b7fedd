use crate::program::Program;
use gd_words::{List, Name, Words};

/// A system: 2 to 16 processors, and the processes and terminals in the order of the deck.
#[derive(Drop)]
pub struct Site {
    pub processors: u8,
    pub processes: List<ProcessSpec>,
    pub terminals: List<TerminalSpec>,
}

/// A process and the processors of its two copies.
#[derive(Drop)]
pub struct ProcessSpec {
    pub name: Name,
    pub primary: u8,
    pub backup: u8,
    pub what: Kind,
}

/// What a process is: a disc with 1 to 64 sectors on one drive or, mirrored, on two; or a pair that runs a program.
#[derive(Drop)]
pub enum Kind {
    Disc { sectors: u8, mirrored: bool },
    Pair(Program),
}

/// A terminal: the number of the process that it asks, and its requests in order.
#[derive(Drop)]
pub struct TerminalSpec {
    pub name: Name,
    pub target: u8,
    pub requests: List<Words>,
}

/// An opener of a process, and how many of its replies are kept.
#[derive(Clone, Copy, PartialEq, Eq)]
pub struct OpenerSpec {
    pub who: Who,
    pub depth: u8,
}

/// Who opens a process: a file of a process's program, or a terminal.
#[derive(Clone, Copy, PartialEq, Eq)]
pub enum Who {
    File { process: u8, file: u8 },
    Terminal(u8),
}
