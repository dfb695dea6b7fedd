//! Guards of sweeps: how a row counts kinds of runs, which runs a row counts, and which rows a sweep has. A definition
//! is refused here that counts a run twice, takes one kind for another, forgets the last run, or stops another
//! processor.
//!
//! Below stand `run_table` and `schedule_sweeps`, whose definitions are guarded; nothing stands above.
#![tactic(auto)]

pub mod counts;
pub mod runs;
