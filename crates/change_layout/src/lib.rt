//! Checkpoints that carry what changed in the receive table since the one before, and the words in which they go.
//!
//! Below stand `sync_ids` with what changed in a receive table, `receive_changes` with the law that it gives the later
//! table, and `checkpoint_image` with the words of files, of replies and of the place in hand. The layer above uses
//! that a checkpoint as what changed makes the same checkpoint again (`laws`), that it has its words (`words_since`),
//! and words at most one such checkpoint (`from_words`).
#![tactic(auto)]

pub mod laws;
pub mod layout;
pub mod message;
mod putting;
mod reading;

pub use laws::a_change_makes_its_checkpoint;
pub use layout::{from_words, to_words, words_since, words_tell_their_message};
pub use message::{ChangeImage, ChangeMessage};
pub use receive_changes::{Asker, Receive};
