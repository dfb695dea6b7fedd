//! The machine of single unfailing processes, on which acts are made one by one or schedules are played.
//!
//! Below stand `plain_semantics` with the machine's definition, `processes` with what runs on it, and `schedule` with
//! the lines. The layer above uses `Plain`, whose acts are those of `made`, and `play_lines`, whose acts are those of
//! `run_of` of `specs/Lines.antt`.
#![tactic(auto)]

mod lines;
mod outcome;
mod plain;
mod process;
mod ran;
mod state;
mod tables;
mod wires;

pub use lines::{Played, play_lines};
pub use outcome::ActFault;
pub use plain::Plain;
