//! A node of the machine over packets, and its wires: both buses and all nodes. A node has an end of a channel with
//! each node, and knows what it heard of the processors.
//!
//! Below stand `link_control`, `alive_regroup`, `bus_model` and `message_words`; `packet_wires` says what happens at
//! nodes, and `event_parts` how that is carried out on wires. The layer above uses that `PacketWires` is the `Wires` of
//! that definition, and that each call carries out the part of an event that it names.
#![tactic(auto)]

pub mod node;
pub mod wires;

pub use event_parts::{ChangeMessage, Effect, ImageMessage};
pub use link_control::Channel;
pub use message_words::{
    NodeMessage, change_words, checkpoint_words, read, reply_words, request_words, set_of,
    taken_words,
};
pub use node::Node;
pub use wires::PacketWires;
