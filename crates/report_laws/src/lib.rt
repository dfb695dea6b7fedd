//! Laws of verdicts on reports. No code runs here.
//!
//! Below stand `report_judge` with what a verdict says, `report_reader` and `plain_semantics`. Whoever asks whether a
//! report may be verified and rejected too cites `a_report_has_one_verdict`.
#![tactic(auto)]

pub mod laws;

pub use laws::{a_report_has_one_verdict, what_is_reported_is_verified};
