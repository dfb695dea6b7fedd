//! Which words of a program's globals differ between two images of it that have all of its globals.
//!
//! Below stand `image_places`, which reads what runs off an image, and `process_semantics` with the words of globals.
//! The layer above uses `words_set`, whose answer is `words_set` of `specs/Changes.antt`.
#![tactic(auto)]

pub mod changes;

pub use changes::{WordSet, words_set};
