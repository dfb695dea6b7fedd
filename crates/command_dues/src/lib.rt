//! What is due of a command, before anything is written, and how the command ends.
//!
//! Below stand the definitions of what is read, judged, run and told: `command_words`, `deck_reader`, `verdicts`,
//! `packet_runs`, `schedule_sweeps`, `site_advice`, `report_judge` and `trace_print`. The layer above decides and
//! writes by these definitions: its top call has the contract `Ends` of `specs/Ends.antt`.
#![tactic(auto)]

pub mod due;
pub mod outcome;
pub mod task;

pub use deck_reader::{Deck, read_deck};
pub use due::{AdvisedSite, Due, RefusedSite, Report};
pub use outcome::{Outcome, RunEnd, Status};
pub use report_judge::{
    Closing, End, MirrorDrives, SiteAdvice, VerifyFault, Why, advise_all, deck_end, verify,
    write_advised, write_checked, write_fault, write_load_report, write_refusal, write_rejected,
    write_report, write_sweep, write_usage, write_verified,
};
pub use schedule_sweeps::{Machine, run, stopped_processors, sweep};
pub use task::{Task, Telling};
