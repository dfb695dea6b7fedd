//! What is played over whole messages: it is a run of the world of copies, what is on its wires are letters that were
//! sent and are owed, and no second processor stops while one has stopped.
//!
//! Below stand `message_wires` with what each event makes of a state, `letters`, `computed_changes`, and `letter_laws`
//! with the law that letters carry what was sent. The layer above plays these states, and gets the laws of the world by
//! `what_is_played_follows`. No code runs here.
#![tactic(auto)]

pub mod laws;

pub use laws::{
    a_whole_world_stays_whole, an_idle_state_is_idle, at_most_one_processor_has_stopped,
    what_has_stopped_is_marked, what_is_owed_is_put_again, what_is_played_follows,
};
