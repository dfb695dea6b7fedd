//! What is found of the programs of a deck, as text for people: for a refused program the cause as a sentence, the way
//! to it as lines of the deck with a note at each statement that leads to it, and what the program lacks; for an
//! accepted one what each CHECKPOINT sends, and which names it doesn't need.
//!
//! Below stand `pair_findings` with what is found, `fault_words` with the lines of a deck, and `text_pieces`, by whose
//! pieces texts are put together. The layer above uses `put_pairs`, whose text is `pair_texts` of
//! `specs/PairText.antt`, and for one line of a deck `pair_line` and `put_place_line`.
#![tactic(auto)]

mod carried;
pub mod deck_place;
mod lacking;
pub mod lists;
mod names;
pub mod pairs;
mod sentence;
mod steps;

pub use carried::put_place_line;
pub use deck_place::pair_line;
pub use pair_findings::{Finding, findings_of};
pub use pairs::put_pairs;
