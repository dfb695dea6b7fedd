//! Why an event over packets changes only what is at its node: of each process the copy there, and of the wires that
//! node and the buses. No code runs here.
//!
//! Below stands `packet_wires` with what is played.
#![tactic(auto)]

pub mod laws;
