//! Packets on the buses between nodes, and the pieces of ten words in which messages go.
//!
//! Below stand `gd_words`, and `schedule` with the names of the buses. The layers above use that a packet has its 16
//! words and 16 words at most one packet (`Packet::to_words`, `Packet::from_words`), that `cut` gives the pieces of a
//! message, and that a `Joiner` gives the message of the pieces that came and takes memory for none but whole messages
//! once it has room.
#![tactic(auto)]

pub mod joiner;
pub mod layout;
pub mod packet;
pub mod piece;

pub use gd_words::limits::MOST_PACKETS;
pub use gd_words::{List, NoMemory};
pub use joiner::Joiner;
pub use layout::words_tell_their_packet;
pub use packet::{Incarnation, Packet, PacketKind};
pub use piece::{Piece, PieceWords, cut};
pub use schedule::BusName;
