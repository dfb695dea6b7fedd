//! Why the wires of the machine over packets are a net of channels, and what that net owes: what was pushed into an
//! open channel is what came out of it, and then what is owed there. No code runs here.
//!
//! Below stand `packet_wires` with what is on the wires, and `channel_laws` with nets of channels. The layer above
//! keeps `Ties`, of `specs/Owing.antt`, event by event.
#![tactic(auto)]

pub mod laws;
