//! Which command the words of a command line ask for.
//!
//! Below stand `clap`, which tells the words of one simple command apart, `deck_lines` with numbers as decks have them,
//! `player` with the stop of a processor, and `gd_words` with `NoMemory`. The layer above uses the clauses of
//! `asked_by`: the answer is its definition at the words, its numbers are in their ranges, and it is missing only where
//! memory ran out. `guards` says what the definition is at telling words, so that a wrong one is refused.
#![tactic(auto)]

pub mod asked;
pub mod guards;
mod line;

pub use asked::{Command, asked_by, stop_of};
