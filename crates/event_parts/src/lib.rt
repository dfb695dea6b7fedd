//! An event over packets in parts: what each part makes of the wires where it is carried out by itself, and why its
//! parts in turn make what the whole event makes. No code runs here.
//!
//! Below stands `packet_wires` with what nodes do. The layer above carries out each part on its own wires, and joins
//! what it made by `parts_are_carried_out_in_turn`.
#![tactic(auto)]

pub mod laws;

pub use packet_wires::{Bus, ChangeMessage, Effect, ImageMessage};
