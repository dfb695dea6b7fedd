//! The grammar of decks: which lines a text has, in which order, and which deck it spells, as a relation that can be
//! read without the steps of the reader.
//!
//! Below stand `deck_lines`, which says what a line says, `tal_reader`, which says what a program's text reads as,
//! `deck_reader`, whose decks these are, and `tal_tree` and `schedule` with what a deck is made of. The layer above
//! uses `the_grammar_spells_the_decks`: what the grammar spells (`specs/Spells.antt`) is what the reader takes. No code
//! runs here.
#![tactic(auto)]

pub mod laws;

pub use laws::{the_grammar_spells_one_deck, the_grammar_spells_the_decks};
