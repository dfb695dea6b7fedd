//! The verdict on the programs of a site: the first that is refused, in deck order, or that all are accepted.
//!
//! Below stand `discipline`, which judges one program, and `statement_lines`, which tells where its statements stand.
//! The layer above uses `first_refused`, whose answer is `IsFirstRefused` or `AreAccepted` of `specs/Refused.antt`.
#![tactic(auto)]

pub mod refused;

pub use discipline::check;
pub use refused::{RefusedProgram, first_refused};
