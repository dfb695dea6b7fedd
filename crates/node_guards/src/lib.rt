//! Guards of nodes and their parts: packets and their words, what stands on a bus, channels, silence and agreement, the
//! messages of the code, nodes and wires, each at telling points. A wrong definition is refused here.
//!
//! Below stand `packet_words`, `bus_model`, `link_control`, `alive_regroup`, `message_words`, `event_parts` and `node`,
//! whose definitions are guarded; nothing stands above.
#![tactic(auto)]

pub mod channels;
pub mod messages;
pub mod nodes;
pub mod packets;
pub mod silence;
pub mod wires;
