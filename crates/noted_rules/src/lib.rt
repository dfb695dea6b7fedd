//! The machine over packets of whose events notes are taken, by its definition, and laws that notes change nothing of a
//! run.
//!
//! Below stands `packet_runs` with the machine, and `schedule_loop` with runs of a schedule. A layer above says how its
//! notes go on over an event (`Noting` of `specs/Noted.antt`), plays its schedule by `noted_rules`, and uses that a run
//! with notes is a run without them (`proofs/Forgotten.antt`). No code runs here.
#![tactic(auto)]

pub mod laws;

pub use laws::an_event_makes_the_same_with_notes;
pub use packet_runs::{PlayedPackets, ProcessCopies, Ran, sizes_of};
