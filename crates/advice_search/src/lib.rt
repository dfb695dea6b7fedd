//! What a program's CHECKPOINTs have to name, and how many replies its files need, so that it keeps the checkpoint
//! discipline.
//!
//! Below stand `advice` with the answer's data and what it means, and `due_search`, which searches a program's graph
//! for one reason. The layer above uses `advise`, whose contract is `IsAdvised` of `advice`.
#![tactic(auto)]

pub mod advising;
mod checkpoints;
mod deepest;
mod due_sets;
mod lists;

pub use advice::{Advice, AdviseFault, Advised};
pub use advising::advise;
pub use path_semantics::{Reason, RefusalFault};
