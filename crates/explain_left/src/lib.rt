//! What is told of a deck where it is asked what is left of its run: how the run ended, and what is left of each
//! terminal and each process; or why a program of it is refused.
//!
//! Below stand `explain_why` with what is told of refused programs, `noted_runs` with the run, `accepted_decks` with
//! the law that a deck whose programs are accepted can be run, and `left_text` with what the machine's view tells. The
//! layer above uses `left_deck`, whose answer is `IsLeftDeck` of `specs/Left.antt`.
#![tactic(auto)]

pub mod ending;
pub mod left;
pub mod run;

pub use explain_why::{
    JudgedDeck, judged_deck, programs_of_a_deck_can_be_judged, unrefused_programs_are_accepted,
};
pub use left::left_deck;
