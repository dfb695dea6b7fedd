//! The top call: the words of a command line, a source and a sink in, the number out with which the program ends.
//!
//! Below stand `command_dues`, whose definitions say what is due and how a command ends, `command_words`,
//! `deck_reader`, `load_deck`, `verdicts`, `packet_runs`, `schedule_sweeps`, `shown_sectors`, `run_table`,
//! `site_advice`, `report_judge`, `trace_print` and `gd_io`, and `accepted_decks` with the laws of what is run.
//! `command` decides first: it reads, runs and takes all memory that is needed; only then it writes. The program
//! `guardian` is the one call of `exit_number`, whose contract is that of `command` and the number of its status.
#![tactic(auto)]

mod decide;
pub mod entry;
mod mirrors;
mod sweep;
mod verified;

pub use entry::{command, exit_number};
