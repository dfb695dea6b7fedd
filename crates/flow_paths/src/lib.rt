//! The graph of a program: the entries of its main procedure with all calls written out, and where each leads. A
//! checker walks it node by node in place of paths, and meets no call.
//!
//! Below stand `path_semantics`, whose places and dues the graph follows, `process_semantics` with the entries, and
//! `tal_tree`. The layer above uses `Flow::of`, by which the edges of each node are the ways of its entry (`IsFlow` of
//! `specs/`), the law `paths_are_walks`, and the lemmas of `proofs/Along.antt`: what holds along edges holds wherever a
//! path leads, and a walk from node to node is a path.
#![tactic(auto)]

pub mod fault;
pub mod flow;
pub mod graph;
pub mod laws;
mod layout;
mod size;

pub use fault::FlowFault;
pub use flow::Flow;
pub use graph::{Edge, Goal, Node};
pub use laws::paths_are_walks;
pub use path_semantics::{Entry, Reason, entry_number};
