//! A bus: the packets on it in order, with room for 4,096.
//!
//! Below stands `packet_words`, which has the packets. The layers above use that a bus is the list of its packets: what
//! is sent goes to the end or is lost, and what is delivered or lost is taken out where it stands.
#![tactic(auto)]

pub mod bus;

pub use bus::Bus;
