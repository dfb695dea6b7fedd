//! The law that a program which a text reads as can be loaded. No code runs here.
//!
//! Below stand `tal_laws` with what holds of every program that is read, `code_room` with the room that its code needs,
//! and `tal_interp`, which says what it asks of a program that it loads. Whoever reads programs and runs them cites
//! `what_is_read_can_be_loaded`.
#![tactic(auto)]

pub mod laws;

pub use code_room::read_program;
pub use laws::what_is_read_can_be_loaded;
