//! Why what is played over packets is a run of the world of copies with its letters. No code runs here.
//!
//! Below stand `packet_wires` with what is played, `packet_nets` with what its wires owe, and `letters_layout`, by
//! which every letter fits the layout. The layer above uses `what_is_played_follows`.
#![tactic(auto)]

pub mod laws;
