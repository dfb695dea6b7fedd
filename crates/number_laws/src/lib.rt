//! That numbers have successors: before each event of what is played over whole messages, while there are fewer events
//! than numbers of 32 bits, each number that the event may raise is below the last one of its range. So a machine of
//! that range never lacks a number. And each request on the bus names an opener that is there. No code runs here.
//!
//! Below stands `message_wires` with what each event makes of a state, and with `HasRoom`. The machine requires both
//! before each event. The layer above gets them from `numbers_have_successors`, `letters_have_numbers` and
//! `requests_name_their_openers`.
#![tactic(auto)]

pub mod laws;

pub use laws::{
    a_tick_only_adds_letters, letters_have_numbers, numbers_have_successors,
    requests_name_their_openers,
};
