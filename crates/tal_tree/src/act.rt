use gd_words::{Sector, Words};

/// One act of the machine of single unfailing processes. Processes, terminals and openers are named by their places in
/// the deck, counted from 0.
#[derive(Clone, Copy, PartialEq, Eq)]
pub enum Act {
    Step(u8),
    Take { process: u8, opener: u16 },
    Enter(u8),
    Print(u8),
}

/// What can be seen from outside: a write to a disc's sector, or the reply that a terminal prints to its request of
/// this number, from 1.
#[derive(Drop)]
pub enum Shown {
    Write {
        process: u8,
        sector: u8,
        words: Sector,
    },
    Reply {
        terminal: u8,
        number: u32,
        words: Words,
    },
}
