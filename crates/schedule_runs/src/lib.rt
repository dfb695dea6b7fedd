//! A schedule played on the machine over whole messages, to its end.
//!
//! Below stand `schedule_loop` with the loop over a schedule, `player` with the events of lines, `line_lengths` with
//! how many of them there are at most, `pair_machine` with the machine, and `number_laws`, by which the machine's
//! numbers have successors. The schedule has to ask for few events (`AsksForFewEvents` of `specs/Lengths.antt`). The
//! layer above uses that `run` answers a run of it, with its end (`IsRunOfPairs` of `specs/Ends.antt`), and the law
//! that the events of a schedule are played.
#![tactic(auto)]

pub mod laws;
mod pairs;
pub mod ran;
mod running;

pub use laws::events_of_a_schedule_are_played;
pub use ran::Ran;
pub use running::run;
pub use schedule_loop::Ending;
