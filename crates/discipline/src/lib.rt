//! The checker of the checkpoint discipline: whether a program keeps it, and if not, a shortest path that breaks it;
//! and whether a list of statement numbers is a path, and breaks.
//!
//! Below stand `path_semantics` with the paths, what is due along them and what breaks, `flow_paths` with the graph
//! that is walked in their place, `due_search`, which searches it for one reason, and `reason_dues` with what is due as
//! numbers and as sets. The layer above uses `check`, whose contract is `IsVerdict` of `specs/Verdict.antt`, `is_path`
//! and `breaks`, which take no memory, and the laws of this crate's public functions.
#![tactic(auto)]

pub mod checker;
mod find;
pub mod laws;
pub mod paths;
mod stack;
mod suspects;
mod walk;
mod walker;

pub use checker::check;
pub use due_search::{Aim, Flow, FlowFault, Numbers, Search, Visit, may_break_at};
pub use laws::{accepted_is_ok, one_verdict};
pub use path_semantics::{Reason, RefusalFault};
pub use paths::{breaks, is_path};
