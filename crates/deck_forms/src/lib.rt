//! Why a report can tell what a deck shows. No code runs here.
//!
//! Below stand `deck_reader` and `tal_pieces`, by which the numbers of decks and programs are words, and `shown_forms`,
//! which says what can be told. Whoever asks whether a run of a deck can be told cites the law.
#![tactic(auto)]

pub mod laws;

pub use laws::a_deck_is_tellable;
