//! What the names of a program text stand for, and how the least of the faults by rules is kept.
//!
//! Below stand `tal_syntax` for the syntax and `tal_tree` for places and faults. The
//! layers above, which judge declarations and bodies, ask `meaning_of` and `judge_name` for names, `judge_kind` where
//! they have found one before, and take from an expression or argument the one name or number that it is. They judge
//! part after part, and `with_fault` keeps the least fault of all.
#![tactic(auto)]

pub mod alone;
pub mod fault;
pub mod least;
pub mod lookup;
pub mod meaning;
pub mod names;
pub mod place;
pub mod scope;
pub mod system;

pub use fault::{Rule, RuleFault};
pub use meaning::{Meaning, Need, Wanted};
pub use names::Names;
pub use scope::{Named, Scope};
pub use system::System;
