//! What is told of a deck that can't be read: the fault as a sentence, where it stands, the line on which it does, and
//! what often lies behind it. The wording is data, and the facts follow from the deck's bytes and its fault.
//!
//! Below stand `deck_lines`, which cuts a text into lines and words, `gd_words` with the signs of names, and `tal_tree`
//! with the faults. The layer above uses the clauses of `sentence_of`, `place_of`, `line_under` and `hint_of`.
#![tactic(auto)]

pub mod hint;
pub mod place;
pub mod sentence;

pub use hint::{Hint, cut_at, hint_of};
pub use place::{FaultPlace, line_under, place_of};
pub use sentence::sentence_of;
