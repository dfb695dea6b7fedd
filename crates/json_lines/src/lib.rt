//! Texts as strings and arrays of JSON (RFC 8259), put behind a text.
//!
//! Below stand the crate `json`, whose definitions say what a text of JSON is, and `text_pieces`. The layers above use
//! `put_string` and `put_strings`, whose texts are `string_text` and `strings_text` of `specs/Strings.antt`, and by
//! `proofs/Printed.antt` that these are the texts of their tokens.
#![tactic(auto)]

pub mod laws;
pub mod strings;

pub use strings::{put_string, put_strings};
