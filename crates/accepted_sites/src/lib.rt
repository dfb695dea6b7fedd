//! The headline over what the reader, the checker and the deck give: the kept acts of each run of accepted programs are
//! possible.
//!
//! Below stand `takeover_laws`, which proves it for sites that keep the checkpoint discipline, `discipline_laws` and
//! `tal_laws`, which say that accepted programs that were read keep it, and `tal_reader` and `path_semantics`, whose
//! definitions the premises name (`specs/Premises.antt`). The layer above uses `kept_acts_are_possible`. No code runs
//! here.
#![tactic(auto)]

pub mod guards;
pub mod laws;

pub use laws::kept_acts_are_possible;
