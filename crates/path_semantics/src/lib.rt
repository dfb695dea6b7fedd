//! The checkpoint discipline: what a path through a program is, what is due along it, when it breaks, and which
//! programs are accepted. The definitions are in `specs/`.
//!
//! Below stand `tal_tree` with the trees and `process_semantics`, whose entries remain at a place. The layer above uses
//! `IsAccepted`, `Leads` and `Breaks` of `specs/`, `call_depth`, which counts how deep a program's calls go, what
//! `breaking` tells of one statement, and the laws of this crate's public functions.
#![tactic(auto)]

pub mod breaking;
mod depth;
pub mod dues;
mod frame;
pub mod laws;
pub mod paths;
pub mod reason;
mod stand;

pub use breaking::{asks, may_break, sends};
pub use depth::call_depth;
pub use dues::Dues;
pub use laws::{
    accepted_breaks_nowhere, bounds_follow_calls, break_is_path, checkpoint_clears, front_is_path,
    path_fixes_its_stand, places_are_told, quiet_programs_are_bounded, successors_differ,
};
pub use paths::{breaks_there, leads_somewhere};
pub use process_semantics::{Entry, entry_number};
pub use reason::{Reason, RefusalFault};
