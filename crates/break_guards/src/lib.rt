//! Guards of what breaks a run: the order in which acts go, what is to be shown next, how many stops are tried, what is
//! told, and how far a search is. A wrong definition is refused here.
//!
//! Below stands `break_text`, whose definitions and those that it passes on are guarded; nothing stands above.
#![tactic(auto)]

pub mod judging;
pub mod telling;
