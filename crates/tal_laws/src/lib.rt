//! Laws of the programs that texts read as: their numbers count up from 1 in the order of the text, their calls are of
//! earlier procedures, they keep the limits, and they are regular.
//!
//! Below stand `tal_reader`, which says what it is that a text reads as a program, `tal_tree`, which says what
//! numbered, ordered and regular programs are and what the limits are, and `tal_faultless`, whose lemmas on texts
//! without faults are used in the proofs. The layer above relies on the four laws.
#![tactic(auto)]

pub mod laws;

pub use laws::{
    what_is_read_is_numbered, what_is_read_is_ordered, what_is_read_is_regular,
    what_is_read_keeps_the_limits,
};
pub use tal_reader::read_program;
