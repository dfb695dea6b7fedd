//! Reads a deck, and tells of it what is asked: a source in, a text to a sink, and the status out.
//!
//! Below stand `deck_reader`, `fault_text` with what is told of a deck that can't be read, `explain_why`,
//! `explain_left`, `explain_break` and `explain_chart` with what is told of one that can, `traced_decks` with a run
//! whose events are told, and `gd_io`.
//! `tell` decides first: it reads, judges, runs and takes all memory that is needed; only then it writes. A run whose
//! events are told goes on while they are written. How far a search is goes meanwhile to a sink of its own.
#![tactic(auto)]

mod decide;
pub mod due;
pub mod entry;
pub mod status;
pub mod telling;

pub use entry::{tell, tell_number};
pub use explain_chart::{Manner, Scope, Span};
pub use status::Status;
pub use telling::Telling;
