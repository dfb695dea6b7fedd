//! Reads the report of a run line by line: what each line tells of a site, and which line can't stand where it does.
//!
//! Below stand `tal_tree` and `plain_semantics` with sites, acts and openers, `deck_lines` with the words of a deck's
//! lines, and `trace_print`, whose texts these are. The layer above uses the clauses of `read_report`, which answers
//! what the lines tell or the first that has no form there, as `specs/Reading.antt` says, and of `deck_end`, where a
//! deck ends that a report follows.
#![tactic(auto)]

pub mod deck_ends;
pub mod names;
pub mod numbers;
pub mod parts;
pub mod reading;
pub mod told;

pub use deck_ends::deck_end;
pub use reading::{Reading, ReportFault, read_report};
pub use told::Told;
pub use trace_print::{
    Closing, End, LoadCounts, MirrorDrives, PairAdvice, RefusedProgram, SiteAdvice, advise_all,
    write_advised, write_checked, write_fault, write_load_report, write_refusal, write_rejected,
    write_report, write_sweep, write_usage, write_verified,
};
