//! Why the names of a deck tell its processes, terminals and openers apart. No code runs here.
//!
//! Below stand `deck_reader`, by whose faults no name is told twice, `tal_faultless` and `tal_pieces` with what is
//! known
//! of the names of a program, and `told_reports`, which says what it is that names tell apart. Whoever asks whether a
//! report of a deck is read back cites the law.
#![tactic(auto)]

pub mod laws;

pub use laws::names_of_a_deck_tell_apart;
