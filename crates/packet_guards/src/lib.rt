//! What the machine over packets plays, at telling points: each number, order and branch of `play` by its value. No
//! code runs here, and nothing stands on this crate.
//!
//! Below stand `packet_wires` with what is played, and `letter_guards` with the sites of its examples.
#![tactic(auto)]

pub mod guards;
pub mod reloads;
