//! A schedule has one run, on any machine: what is played, how it ends and what is left are told by the machine, its
//! beginning, the schedule and the stop; so over packets by the site, the schedule and the stop. No code runs here.
//!
//! Below stand `schedule_loop`, whose definitions say what a run of a schedule is, and `packet_runs` with the runs over
//! packets. The layer above uses `a_schedule_has_one_run`.
#![tactic(auto)]

pub mod laws;

pub use laws::a_schedule_has_one_run;
