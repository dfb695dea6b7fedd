//! Why the lines of a report are read as they were written. No code runs here.
//!
//! Below stand `report_reader` with what a line tells, and `trace_print` with the lines. Whoever asks whether a
//! report may be read as another one cites `a_report_is_read_back`.
#![tactic(auto)]

pub mod laws;

pub use laws::{a_name_tells_its_bearer, a_report_is_read_back, an_act_is_told_by_its_line};
