//! The open links of a node, told from the world of copies: `links_of`.
//!
//! Below stand `world_copies` with the copies and terminals in code, and `node_needs`, whose definition says which
//! links are open at a node. The layer above uses that what is told is exactly that.
#![tactic(auto)]

mod copies;
pub mod links;
pub mod telling;

pub use links::{NodeLinks, RequestName};
pub use telling::links_of;
pub use world_copies::{
    CopyControl, CopyShare, Disc, Downs, DriveState, Message, NodeCopy, Process, ProcessCopies,
    Sending, StepOutcome, Terminal, Waiting, WorldCopies, copy_request,
};
