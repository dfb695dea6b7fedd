//! The text that tells a deck's fault to people: the fault as a sentence, the deck's line with its number, a caret
//! under the column where there is one, a hint where one is known, and the line that `guardian` writes.
//!
//! Below stand `fault_words` with the words and the facts, `text_pieces`, of which texts are made, `trace_print` with
//! `guardian`'s line, and `gd_io`. The layer above uses the clauses of `told_text` and `write_why`; both are `why_text`
//! of `specs/WhyText.antt`.
#![tactic(auto)]

pub mod why;

pub use why::{told_text, write_why};
