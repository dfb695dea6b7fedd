//! A search through a program's graph for one reason of the checkpoint discipline: which nodes are reached from the
//! first one with how much due, and a shortest path to where as much is due as breaks.
//!
//! Below stand `flow_paths` with the graph and its walks, and `reason_dues` with what is due for a reason as a number.
//! The layers above, the checker and what advises, use `Search::run`: its visits are what walks lead to (`HasFound` of
//! `specs/Ends.antt`), and by the lemmas of `proofs/Paths.antt` what paths lead to.
#![tactic(auto)]

pub mod queue;
pub mod search;

pub use flow_paths::{Edge, Flow, FlowFault, Goal, Node};
pub use queue::Visit;
pub use reason_dues::{Numbers, Reasons, after_entry, after_return, may_break_at, most_of};
pub use search::{Aim, Search};
