//! What came of the search for a run that goes wrong, as text for people.
//!
//! Below stand `break_runs` with the search, `trace_print` with the line of what is shown, and `text_pieces`, by whose
//! pieces texts are put together. The layer above uses `put_search`, whose text is `search_text` of
//! `specs/BreakText.antt`.
#![tactic(auto)]

mod apart;
mod broken;
mod lines;
mod names;
pub mod whole;

pub use break_runs::search_breaks;
pub use whole::put_search;
