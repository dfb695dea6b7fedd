//! A schedule played on the machine over packets to its end, where it is noted of each process with which step it
//! ended.
//!
//! Below stand `noted_rules` with the machine of whose events notes are taken, `schedule_loop` with the loop over a
//! schedule, and `program_ends` with how a program ends. The layer above uses that `run` answers a run of the schedule
//! with its notes (`IsRunWithSteps` of `specs/Runs.antt`), and the law that this is a run of `packet_runs`.
#![tactic(auto)]

pub mod laws;
mod noted;
pub mod running;
pub mod steps;

pub use laws::a_noted_run_is_a_run;
pub use program_ends::{LastStep, Trap};
pub use running::{NotedRan, run};
