//! A schedule played to its end, with a stop of a processor where one is given, on any machine that plays events.
//!
//! Below stand `player` with the events of lines, `agendas` with where a schedule stands, and `machine_states` with
//! what a machine answers. The layer above gives its machine by `ScheduleMachine`, shows that each state that its
//! schedule reaches is ready, and uses that `run` answers a run of it (`IsRunOn` of `specs/Ends.antt`).
#![tactic(auto)]

pub mod agenda;
mod drain;
pub mod laws;
pub mod machine;
pub mod ran;
mod running;

pub use agenda::Schedule;
pub use laws::counts_of_states_give_the_same_runs;
pub use machine::ScheduleMachine;
pub use ran::{Ending, Ran};
pub use running::run;
