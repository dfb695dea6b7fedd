//! What a program has to do, by its numbers: the statement, or of a FOR the test or the last assignment, that a number
//! stands for.
//!
//! Below stand `process_semantics` with the entries of which a program's rest is made, and `tal_tree` with the trees.
//! The layer above takes the entries of a program from `entries_of`, and relies on the law
//! `numbers_tell_what_comes_next`.
#![tactic(auto)]

mod entries;
pub mod laws;

pub use entries::{ProgramEntries, entries_of};
pub use laws::numbers_tell_what_comes_next;
