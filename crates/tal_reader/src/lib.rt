//! The reader of program texts: the program that a text reads as, or the one fault for which it is refused.
//!
//! Below stand `tal_tokens`, which cuts a text into tokens, `tal_recogniser`, which judges them by the grammar,
//! `tal_builder`, which builds their syntax, `tal_rules`, whose faults judge that, and `tal_meaning`, which makes its
//! tree. The layer above uses `read_program`, whose contract names `Reads` and `IsRefused` of `specs/Reads.antt`, and
//! the laws of reading.
#![tactic(auto)]

mod place;
pub mod reader;

pub use reader::{
    a_text_is_refused_for_one_fault, a_text_reads_as_one_program, read_program,
    what_is_refused_reads_as_none,
};
