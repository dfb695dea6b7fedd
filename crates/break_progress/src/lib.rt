//! What is told of a search among the runs of a deck while it goes on: a line after each hundred runs of which none
//! breaks.
//!
//! Below stand `gd_io` with the sink that it goes to, and `text_pieces`. The layer above calls `tell_run` after each
//! run that doesn't break, whose clause `TellsOn` joins with those of the calls before (`specs/Progress.antt`).
#![tactic(auto)]

mod line;
pub mod telling;

pub use telling::{runs_of, tell_run};
