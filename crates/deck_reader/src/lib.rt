//! Reads a deck: the processors, the processes with their programs, the terminals with their requests, and the
//! schedule.
//!
//! Below stand `deck_lines`, which tells what a line says, `tal_reader`, which reads the programs, `tal_laws`,
//! `tal_tree` for the site and the faults, `schedule` for the event lines, and `name_table`, in which processes and
//! terminals stand by their names. The layer above uses the clauses of `read_deck`: what is taken is a deck, every deck
//! is taken, and what is refused is refused for its one fault; and the law `a_deck_keeps_the_limits`.
//!
//! `line_fault` tells what a line adds or why it can't stand, `event_line` the event line that it is, `step` and `told`
//! go from line to line, `programs` reads the programs, and `names` looks up names.
#![tactic(auto)]

pub mod deck;
pub mod event_line;
pub mod laws;
pub mod line_fault;
pub mod names;
pub mod outline;
pub mod programs;
pub mod step;
pub mod told;

pub use deck::{Deck, read_deck};
pub use laws::{
    a_deck_keeps_the_limits, a_deck_reads_its_programs, bytes_are_refused_for_one_fault,
    bytes_spell_one_deck, requests_of_a_deck_are_short, what_is_refused_spells_no_deck,
};
