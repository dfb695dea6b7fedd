//! Guards of traces: what is told of events at telling points of worked runs, and lines as they are written. A wrong
//! definition is refused here. No code runs, and nothing stands on this crate.
//!
//! Below stand `event_findings` and `trace_lines`, whose definitions are guarded.
#![tactic(auto)]

pub mod events;
pub mod lines;
