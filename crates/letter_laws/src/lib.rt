//! Letters that were sent: that each letter carries a message that was sent in the world of copies, that what is
//! awaited was sent, that a checkpoint which comes fits its process, and that a request comes early to a copy that
//! watches or is blank.
//!
//! Below stand `takeover_laws` with the invariant of runs, `letters` with what is sent between nodes,
//! `computed_changes` with what a message does that comes, and `awaited_requests` with the seats of copies. A machine
//! shows by `letters_were_sent` and `checkpoints_that_come_fit` that what it does with a letter is a change of the
//! world; the crates above keep `IsKnown`, of `specs/Known.antt`, from event to event. No code runs here.
#![tactic(auto)]

pub mod guards;
pub mod laws;

pub use laws::{checkpoints_that_come_fit, letters_were_sent};
