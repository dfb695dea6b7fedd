//! Guards of runs: where a stop comes among the events of a schedule, what is counted before an event, which packet an
//! event concerns, and how a run ends, each at telling points. A wrong definition is refused here.
//!
//! Below stand `schedule_runs` and `player`, whose definitions are guarded; nothing stands above.
#![tactic(auto)]

pub mod aims;
pub mod counts;
pub mod draws;
pub mod ends;
pub mod stops;
