//! Judges the report of a run by the machine of single unfailing processes, without believing the machine that made it.
//!
//! Below stand `report_reader` with what the lines of a report tell, `plain_machine` on which the acts are made,
//! `shown_sectors`, and `trace_print`, which writes the report that the acts have there. The layer above uses the
//! clause of `verify`: the report is one of the site, by `IsReported` of `specs/Reported.antt`, or it is rejected at a
//! line for the first cause that holds.
#![tactic(auto)]

pub mod difference;
pub mod judge;
pub mod replay;
pub mod text;

pub use judge::{VerifyFault, Why, verify};
pub use report_reader::{
    Closing, End, LoadCounts, MirrorDrives, PairAdvice, RefusedProgram, SiteAdvice, advise_all,
    deck_end, write_advised, write_checked, write_fault, write_load_report, write_refusal,
    write_rejected, write_report, write_sweep, write_usage, write_verified,
};
