//! Laws of the room that flat code needs below the top of its stack: how many left sides wait while an expression is
//! computed, that its code needs one word for each of them and one more, and that no program that a text reads as needs
//! more words than there are.
//!
//! Below stand `tal_code`, which says what room there is, and `tal_reader`, which says what it is that a text reads as
//! a program. No code runs here.
#![tactic(auto)]

pub mod guards;
pub mod laws;

pub use laws::{
    a_loop_waits_for_its_limit, steps_compute_what_they_are_of, there_is_room_above_others,
    there_is_room_where_few_wait, what_is_read_has_room,
};
pub use tal_laws::read_program;
