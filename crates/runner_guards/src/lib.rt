//! Guards of commands: the numbers with which the program ends, which processors are told to have stopped, which task a
//! command is, what is written of what is due, what is told of a run, and what a report promises, each at telling
//! points. A wrong definition is refused here.
//!
//! Below stands `command_dues`, whose definitions are guarded; nothing stands above.
#![tactic(auto)]

pub mod dues;
pub mod faults;
pub mod outcomes;
pub mod promises;
pub mod statuses;
pub mod told;
