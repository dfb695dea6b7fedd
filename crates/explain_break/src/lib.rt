//! What is told of a deck where it is asked for a run of it that breaks: why a program of it is refused and the first
//! run that breaks, or that none does.
//!
//! Below stand `explain_why` with what is told of refused programs, `break_runs` with the search, and `break_text` with
//! its text; `accepted_decks` and `schedule_lengths` give the premises, which every deck meets. The layer above uses
//! `break_deck`, whose answer is `IsBreakDeck` of `specs/Broken.antt`. How far the search is goes to a sink meanwhile.
#![tactic(auto)]

pub mod broken;

pub use broken::break_deck;
