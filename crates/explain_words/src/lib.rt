//! What the words of a command line of `explain` ask for.
//!
//! Below stand `clap`, which tells the words of one simple command apart, `command_words` with what `P:K` names, and
//! `player` with the stop of a processor. The layer above uses the clauses of `asked_by` and `file_asked`: what the
//! words ask for and of which file, by what clap makes of them. `guards` says what that is at telling words.
#![tactic(auto)]

pub mod asked;
pub mod guards;
pub mod line;

pub use asked::{Question, asked_by, file_asked};
pub use line::{help_text, version_text};
