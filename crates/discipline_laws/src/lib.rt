//! The checkpoint discipline as four laws about what a process does since its last checkpoint: what its checkpoint
//! carries restores it, it is quiet after a take, it calls its device once, and it asks no more than replies are kept.
//! Accepted programs keep them, and so do discs.
//!
//! Below stand `process_histories` with what processes have done, `path_semantics` with the paths of programs and what
//! is due on them, `path_steps`, which says that steps follow paths, and `checkpoint_laws`, which says what a
//! checkpoint restores. The layer above uses `IsDisciplined` of `specs/Disciplined.antt`, and
//! `accepted_programs_are_disciplined` and `discs_are_disciplined`. No code runs here.
#![tactic(auto)]

pub mod guards;
pub mod laws;

pub use laws::{accepted_programs_are_disciplined, discs_are_disciplined, what_was_done_is_due};
