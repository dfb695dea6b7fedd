//! What the numbered statements of a program do to what is due for a reason, and what its CHECKPOINTs name, each in the
//! order of the text.
//!
//! Below stand `path_semantics` with the reasons, `reason_dues`, which tells how much is due, and `program_entries`
//! with what a program has to do by its numbers. The layer above takes the lists of `deeds_of` and `checkpoints_of`;
//! both are given by their definitions in `specs/`.
#![tactic(auto)]

pub mod checkpoints;
pub mod deeds;

pub use checkpoints::{NamedCheckpoint, checkpoints_of};
pub use deeds::{Deed, deeds_of};
