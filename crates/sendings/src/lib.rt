//! Messages between nodes, in code: what a node sends, the letters in which it goes, and which nodes run.
//!
//! Below stand `world_semantics` with messages and sendings, `letters` with letters, and `logs` with checkpoints that
//! several owners hold. The layer above uses that a message is the one of the world that `message_of` names
//! (`specs/Seen.antt`), and that `Sending` and `Letter` are those of the definitions. On which wires letters go is told
//! above.
#![tactic(auto)]

pub mod letter;
pub mod message;
pub mod running;
pub mod sending;

pub use letter::Letter;
pub use message::{Message, copy_reply, copy_request};
pub use running::{TERMINAL_NODE, is_running};
pub use sending::Sending;
