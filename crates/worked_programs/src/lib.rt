//! Worked programs for tests: an adding server, the same with a log, and a bank, with its turn in several forms; and
//! the program of any text.
//!
//! Below stand `tal_reader`, which reads the texts, and `tal_laws` and `loading_laws` with what holds of every program
//! that is read. The crates of tests use the texts, and the clauses of `program_of`.
#![tactic(auto)]

pub mod program;
mod texts;
pub mod turns;

pub use program::{bank_with, program_of};
pub use texts::{ADDER, BANK, LOGGING_ADDER, RARELY_NAMING_ADDER};
