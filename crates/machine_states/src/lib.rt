//! The states of machines of copies, and what a machine answers to an event. Both machines, that of whole messages and
//! that of packets, name these in the contract of their event.
//!
//! Below stands `world_semantics` with the world of copies. The layer above says what is on its wires, and what it
//! plays.
#![tactic(auto)]

pub mod effect;

pub use effect::Effect;
pub use world_semantics::NoMemory;
