//! A schedule played on the machine over packets, to its end.
//!
//! Below stand `schedule_loop` with the loop over a schedule, and `site_machine` with the machine. Each state that the
//! schedule reaches has to be ready for the next event, and it has to ask for few events (`CanBePlayed` of
//! `schedule_loop`). The layer above uses that `run` answers a run of it, with its end (`IsRunOf` of
//! `specs/Ends.antt`), and the law that the events of a schedule are played. Layers that tell or note each event play
//! their schedules on `PlayedPackets` too.
#![tactic(auto)]

pub mod laws;
pub mod packets;
pub mod ran;
mod running;

pub use laws::events_of_a_schedule_are_played;
pub use packets::PlayedPackets;
pub use ran::Ran;
pub use running::{run, sizes_of};
pub use site_machine::{Machine, ProcessCopies, stopped_processors};
