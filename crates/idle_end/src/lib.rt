//! The idle end: where nothing is left to do and every awaited request is served, no act of the machine of single
//! unfailing processes is left after the acts that the run kept and those that its copies hold, and each process is
//! there as its copy.
//!
//! Below stand `takeover_laws` with the invariant of runs, `letters` with what is owed and what it means to be idle,
//! and `awaited_requests` with what it means that requests are served. The layer above shows that they are served in
//! what machines play, and uses `an_idle_end_of_served_requests_leaves_none`. No code runs here.
#![tactic(auto)]

pub mod guards;
pub mod laws;

pub use laws::{an_idle_end_of_served_requests_leaves_none, no_copy_is_behind_at_an_idle_end};
