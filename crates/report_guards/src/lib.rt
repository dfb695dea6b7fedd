//! Guards of the report: the numbers by which faults are told, the lines of what is shown, of sectors, acts,
//! verdicts and advice, their order, and the lines that end a report. A wrong definition is refused here.
//!
//! Below stand `trace_print` and `shown_sectors`, whose definitions are guarded. `reading_guards` takes the site of
//! these lines; nothing else stands above.
#![tactic(auto)]

pub mod acts;
pub mod advice_lines;
pub mod lines;
pub mod shown;
pub mod verdict_lines;
