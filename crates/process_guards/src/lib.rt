//! Guards of what processes do: the points of calls, the steps of programs and discs, their images and what these
//! restore at telling states, which openers a process has, and which acts the machine of single unfailing processes
//! has. A wrong definition is refused here.
//!
//! Below stand `process_semantics` and `plain_semantics`, whose definitions are guarded; nothing stands above.
#![tactic(auto)]

pub mod acts;
pub mod discs;
pub mod images;
pub mod openers;
pub mod points;
pub mod slots;
pub mod steps;
