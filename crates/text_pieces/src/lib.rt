//! Pieces of texts for people, put behind one another: bytes, numbers, and lines of a deck as they are shown.
//!
//! Below stands `gd_words` with the list that grows. The layers above put their texts together by these calls, whose
//! clauses name what each adds.
#![tactic(auto)]

pub mod pieces;

pub use pieces::{put, put_lead, put_number, put_shown};
