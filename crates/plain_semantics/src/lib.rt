//! The machine of single unfailing processes: what a pair of processes is meant to be. One process a name and one slot
//! an opener; there are no numbers of requests, copies, checkpoints, processors or messages in flight.
//!
//! Below stand `tal_tree` with acts and sites and `process_semantics` with the states and steps of processes. The layer
//! above uses `made`, `IsPossible`, `shown_by` and `IsNoneLeft` of `specs/`, and the laws of this crate's public
//! functions.
#![tactic(auto)]

pub mod laws;
pub mod limits;
pub mod opening;
pub mod placed;
pub mod slot;

pub use laws::{acts_follow_acts, front_is_possible, impossible_stays, shown_begins_with_front};
pub use limits::keeps_site_limits;
pub use opening::{files_of, opener_of, openers, server_of};
pub use placed::opener_at;
pub use process_semantics::Point;
pub use slot::{Opener, Slot};
