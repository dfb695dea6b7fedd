//! The headline: whatever fails, the acts that a run of copies keeps are possible on the machine of single unfailing
//! processes, and what was shown is what they show. It is proved here for sites whose processes keep the checkpoint
//! discipline.
//!
//! Below stand `world_semantics` with the rules of the world of copies, `plain_histories` with the ledger that says
//! which acts are possible, and `discipline_laws` with the discipline. `specs/Invariant.antt` says what is so of each
//! world that a run reaches. The layer above uses `kept_acts_of_fit_sites_are_possible`, and `IsFit` of
//! `specs/Fit.antt`. No code runs here.
#![tactic(auto)]

pub mod guards;
pub mod laws;

pub use laws::{kept_acts_of_fit_sites_are_possible, runs_keep_the_invariant};
