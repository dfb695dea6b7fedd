//! What is told of the programs of a deck that can be read: why they are refused, or what their CHECKPOINTs send.
//!
//! Below stand `pair_findings` with what is found of programs, and `finding_text` with how it is told. The layer above
//! uses `judged_deck`, whose answer is `IsJudgedDeck` of `specs/Judged.antt`, and the law that programs which aren't
//! refused are accepted.
#![tactic(auto)]

pub mod judged;
pub mod laws;

pub use deck_reader::Deck;
pub use judged::{JudgedDeck, judged_deck};
pub use laws::{programs_of_a_deck_can_be_judged, unrefused_programs_are_accepted};
