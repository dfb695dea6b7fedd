//! With which step a program ended: at the end of its MAIN, by STOP, by RETURN, or by a trap; and at which line. Of a
//! trap it is told which one it was: of a value, of a count, or of the target of a call.
//!
//! Below stand `program_entries` with what a number stands for, `image_places` with the number of what comes next and
//! the words that it read, by the words of images, and `value_traps`. The layer above uses `end_of_program` and
//! `line_of_number`, whose answers are those of `specs/Ends.antt`, and the laws that a step which ends a program is
//! such a one, that a trap that is told is one, and that each one is told.
#![tactic(auto)]

mod counts;
pub mod ending;
pub mod laws;
mod traps;

pub use ending::{LastStep, Trap, WordTarget, end_of_program, line_of_number};
pub use laws::{
    a_bad_count_is_told, a_call_traps_for_its_hand_or_its_count, a_program_ends_so,
    a_trap_that_is_told_is_one, each_trap_is_told,
};
