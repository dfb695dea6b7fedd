//! The text of the load deck is a deck whose programs are accepted: which one, `specs/LoadDeck.antt` says.
//!
//! Below stand `load_deck` with the text, `deck_reader` and `tal_reader`, whose definitions say what a text spells,
//! `verdicts`, which says what accepted programs are, and `accepted_sites` with the lemmas on programs whose stands can
//! be listed. The layer above uses `the_load_text_is_a_deck`. No code runs here.
#![tactic(auto)]

pub mod laws;

pub use laws::the_load_text_is_a_deck;
