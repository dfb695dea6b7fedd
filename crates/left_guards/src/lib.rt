//! Guards of what is left at the end of a run: where a process stands by its copy that acts, at which line, with which
//! step a program ended, and what is left of the requests of a terminal. A wrong definition is refused here.
//!
//! Below stand `left_findings` and `program_ends`, whose definitions are guarded; nothing stands above.
#![tactic(auto)]

pub mod ends;
pub mod stands;
