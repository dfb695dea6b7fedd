//! What a process has done: its deeds from its beginning on, the newest first, and what they say of its core.
//!
//! Below stands `world_semantics`, whose `Advances` says what one deed makes of a core, with the crates below it. The
//! layer above uses `HasDone` of `specs/Histories.antt`, the words that deeds took in and gave out
//! (`specs/Words.antt`), the sectors that they leave (`specs/Devices.antt`), and the laws of this crate's public
//! functions. No code runs here.
#![tactic(auto)]

pub mod guards;
pub mod laws;

pub use laws::{
    a_history_leaves_a_whole_state, a_process_stays_of_its_kind, deeds_determine_the_core,
    numbers_count_requests, requests_and_replies_alternate, the_last_replies_are_kept,
    writes_are_numbered,
};
