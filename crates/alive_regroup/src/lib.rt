//! Silence and agreement: what a node knows of the processors of its site from their alive packets and reports, and
//! when it pulls the hold line of one.
//!
//! Below stands `gd_words` with the limits. The layers above use that each call of a `Watch`, and of the `Listener`
//! that keeps one, changes what the node knows as `specs/Watching.antt` says, and that `holds` tells whether the node
//! pulls the line of a processor.
#![tactic(auto)]

pub mod listener;
pub mod neighbour;
pub mod set;
pub mod watch;

pub use listener::Listener;
pub use neighbour::{Missed, Neighbour};
pub use set::ProcessorSet;
pub use watch::Watch;
