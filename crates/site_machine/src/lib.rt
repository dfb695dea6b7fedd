//! The machine over packets: the world of copies in code, and under it both buses and all nodes.
//!
//! Below stand `world_copies` with the world, `node` with the wires, `message_words` with messages in words,
//! `open_links` with the links of a node, and `packet_wires` with what each event makes of a state. The layer above
//! uses that each call settles what `play` says. An event requires that each number which it raises has a successor,
//! and that what it sends keeps to the layout (`specs/Needs.antt`).
#![tactic(auto)]

mod delivering;
mod failing;
mod handing;
mod idle;
mod knowing;
pub mod machine;
mod marking;
mod posting;
mod reloading;
mod running;
pub mod stopped;
mod ticking;
mod turning;
mod whole;
mod wording;

pub use machine::Machine;
pub use node::{Effect, set_of};
pub use open_links::{
    CopyControl, CopyShare, Downs, NodeCopy, NodeLinks, Process, ProcessCopies, RequestName,
    Terminal, Waiting, copy_request,
};
pub use stopped::stopped_processors;
