//! What holds of whatever is played over packets, for a site that keeps the limits of decks and whose programs were
//! read and are accepted: the acts that are kept are possible on the machine of single unfailing processes, what was
//! shown is what they show, and at an idle end no act is left there.
//!
//! Below stand `packets_laws`, by which what is played is a run of the world with its letters, and `accepted_sites` and
//! `idle_laws` with the laws of such runs. The layer above plays on a machine whose events `Settles` what `play` says,
//! and applies these laws to what was played. No code runs here.
#![tactic(auto)]

pub mod laws;

pub use laws::{an_idle_end_that_is_played_leaves_none, what_is_played_is_possible};
