//! One end of a channel between two nodes: messages go in pieces, one outstanding at a time, acknowledged and sent
//! again, and are handed over whole.
//!
//! Below stands `packet_words` with packets and pieces. The layer above uses that each call of a `Channel` is that of
//! the definition of one end (`Ends`); what both ends together promise is proved in `channel_laws`.
#![tactic(auto)]

pub mod channel;
pub mod sender;

pub use channel::{Arrived, Channel, Resent};
pub use sender::Sender;
