//! What the writes that a run shows leave on the sectors of its discs.
//!
//! Below stand `tal_tree` with sites and what runs show, and `gd_words`. The report uses the list that `sectors_after`
//! answers, which is that of `specs/Sectors.antt`.
#![tactic(auto)]

mod sectors;
mod table;

pub use sectors::{SectorWords, sectors_after};
