//! The words of the messages between nodes: requests, replies, checkpoints, whole or as what changed, that one was
//! taken, reports of silent processors, and which processor is down. No code runs here.
//!
//! Below stand `checkpoint_image` and `change_layout` with the words of checkpoints, `alive_regroup` with sets of
//! processors, and `world_semantics` with the messages of the world. The layer above sends `words_of`, of
//! `specs/Layout.antt`, and takes what comes for what `understood`, of `specs/Reading.antt`, tells.
#![tactic(auto)]

pub mod laws;

pub use change_layout::ChangeMessage;
