//! A schedule run once for each stop of a processor, and how its runs end, counted.
//!
//! Below stand `packet_runs` with the runs of a schedule over packets, and `run_table` with the rows that count them.
//! The schedule has to be one that can be played with each stop (`CanBePlayed` of `schedule_loop`). The layer above
//! uses that `sweep` answers the rows of all processors (`IsSweepOf` of `specs/Sweeps.antt`).
#![tactic(auto)]

pub mod rows;

pub use packet_runs::{Machine, Ran, run, stopped_processors};
pub use rows::sweep;
