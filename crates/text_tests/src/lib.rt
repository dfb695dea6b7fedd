//! Tests of texts: a deck that is read, and a program that is read, printed and read again, with each form that is
//! printed and a value of 300,000 operators.
//!
//! Below stand the crates that are tested; nothing stands above.
#![tactic(auto)]

#[cfg(test)]
mod decks;
#[cfg(test)]
mod programs;
