//! The wires of the machine over packets, and what each event makes of a state: messages go in pieces over the channels
//! of nodes, processors find out which of them is silent, agree, and pull its hold line. It says what the machine
//! plays; no code runs here.
//!
//! Below stand `message_layout` with the words of messages, `link_control` with the ends of channels, `alive_regroup`
//! with what a node knows of the processors, and `message_wires` with what both machines share. The layer above shows
//! that its machine `Settles` what `play`, of `specs/Play.antt`, says; laws above show that what is played are runs of
//! the world.
#![tactic(auto)]

pub mod examples;

pub use bus_model::Bus;
pub use message_layout::ChangeMessage;
pub use message_wires::{Effect, ImageMessage};
