//! The idle end over what the reader, the checker and the deck give: where machines play until nothing is left to do,
//! nothing is left on the machine of single unfailing processes either, and both are in the same state.
//!
//! Below stand `letters` with what each event does to what is owed and when a machine is idle, `served_requests` and
//! `letter_laws`, by which every awaited request is served, `idle_end`, which proves the end from that, and
//! `accepted_sites`, whose premises on sites it shares. Each machine shows that it plays so, and uses
//! `an_idle_end_leaves_none`. No code runs here.
#![tactic(auto)]

pub mod guards;
pub mod laws;

pub use laws::{an_idle_end_leaves_none, every_awaited_request_is_served};
