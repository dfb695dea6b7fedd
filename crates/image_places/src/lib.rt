//! Where a program stands, by the words of its image: the procedure that runs, the number of what comes next in it, and
//! its locals; and the same of the procedure that has called it. And which words its items have, by its image with
//! everything.
//!
//! Below stand `process_semantics` with what the words of an image are, and `tal_tree`. The layer above uses
//! `next_in`, `caller_in`, `locals_in` and `globals_in`, whose answers are those of `specs/Running.antt` and
//! `specs/Memories.antt`.
#![tactic(auto)]

pub mod memories;
pub mod running;

pub use memories::{globals_in, locals_in};
pub use running::{RunningFrame, caller_in, next_in, running_in};
