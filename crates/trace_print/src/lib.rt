//! The lines of a report: what a run shows, or for a load its counts, the sectors that were written, the drives of
//! mirrored discs, the processors that stopped, the acts that it kept and how it ended; the rows of a sweep; which
//! programs are accepted, and why one is refused; the advice for programs; how a report was judged; a deck's fault;
//! and the usage. Each is one exact text. It goes out by one call of `put_all`, but for the list of a CHECKPOINT,
//! which may be longer than a `Line`. Nothing here takes memory.
//!
//! Below stand `gd_io`, whose relation `Puts` is what each call here says of its sink, `tal_tree` with what the lines
//! tell of, `plain_semantics` with the openers that acts name, `path_semantics` with the reasons of refusals,
//! `shown_sectors`, `mirror` with how drives stand, `run_table` with the rows, and `site_advice` with the advice. The
//! crates above use the texts, `run_text`, `report_text`, `load_report_text`, `sweep_text`, `advised_text`,
//! `accepted_text`, `refusal_text`, `verified_line`, `rejected_line`, `fault_line`, `end_line` and `usage_line`, and
//! join other texts by the lemmas of `gd_io` on `Puts`.
#![tactic(auto)]

pub mod acts;
pub mod advised;
pub mod closing;
pub mod fault;
pub mod judged;
mod line;
pub mod load;
pub mod mirrors;
pub mod report;
pub mod rows;
pub mod sectors;
pub mod shown;
pub mod stops;
pub mod verdict;

pub use acts::{variable_name, write_act, write_all_acts};
pub use advised::{write_advised, write_pair};
pub use closing::{Closing, End, write_closing, write_end, write_usage};
pub use fault::write_fault;
pub use judged::{write_rejected, write_verified};
pub use load::{LoadCounts, write_load};
pub use mirrors::{MirrorDrives, write_all_mirrors, write_mirror};
pub use report::{write_load_report, write_report};
pub use rows::{write_row, write_sweep};
pub use sectors::{write_all_sectors, write_sector};
pub use shown::{process_name, terminal_name, write_all_shown, write_shown};
pub use site_advice::{PairAdvice, RefusedProgram, SiteAdvice, advise_all};
pub use stops::{write_all_stops, write_stop};
pub use verdict::{write_accepted, write_checked, write_refusal};
