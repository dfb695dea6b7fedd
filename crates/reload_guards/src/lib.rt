//! Guards of reloads: which worlds are whole, when a processor is loaded again, what its processes are then, what they
//! send, what comes of it, and which letters are forgotten, each at telling points. A wrong definition is refused here.
//! And where nothing was ever loaded again the rules are what they were: the laws of `without` say so.
//!
//! Below stand `letters` and `computed_changes`, whose definitions are guarded with those of `world_semantics`.
#![tactic(auto)]

pub mod loading;
pub mod renewing;
pub mod shares;
pub mod without;
