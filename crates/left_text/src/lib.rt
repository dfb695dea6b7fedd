//! What is left at the end of a run, as text for people: a line for each terminal; for each process where it stands or
//! how it ended, with the line of the deck; and a line for each ring of processes that wait for each other.
//!
//! Below stand `left_findings` with what is left, `program_ends` with how programs end, `finding_text` with the lines
//! of a deck, and `text_pieces`, by whose pieces texts are put together. The layer above uses `put_left`, whose text is
//! `left_text` of `specs/LeftText.antt`.
#![tactic(auto)]

mod process_ends;
mod reasons;
mod ring_ends;
mod terminals;
pub mod whole;

pub use left_findings::{Left, left_of, view};
pub use whole::put_left;
