//! A schedule played on the machine over packets to its end, of which each event is told to a sink as it is played: a
//! line for each whose number is within a span.
//!
//! Below stand `packet_runs` with the machine as a schedule is played on it, `schedule_loop` with where a schedule
//! stands, `event_findings` with what an event did, `trace_lines` with its line, and `gd_io`. The layer above uses that
//! what `run` writes is the trace of the events that the schedule asks for, and that these are those of a run of
//! `packet_runs` (`Traces` of `specs/Traces.antt`). No line is kept: each is written before the next event is played.
#![tactic(auto)]

pub mod fault;
mod lines;
pub mod manner;
mod running;

pub use event_findings::{Noted, findings, note, shown_since, what_is_found_is_told};
pub use fault::TraceFault;
pub use lines::ending_of;
pub use manner::{Manner, Span};
pub use packet_runs::{Machine, PlayedPackets, Ran, sizes_of};
pub use running::run;
pub use trace_forms::Form;
