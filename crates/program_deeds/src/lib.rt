//! What a program does next, as a deed: an assignment, a test, a call, a return, a call of the system, with the entries
//! that come next. `specs/Deed.antt` reads the deed off what remains, and `specs/Doing.antt` says what it does at each
//! point.
//!
//! Below stands `process_semantics` with the steps of programs. The law `steps_are_deeds` says that these are what the
//! deeds do. So a layer above that keeps a program in another form has to show only which deed it keeps for what
//! remains. No code runs here.
#![tactic(auto)]

pub mod laws;

pub use laws::steps_are_deeds;
