//! The message chart of a run: what is drawn of each of its events, by what the event did.
//!
//! Below stand `trace_lines` with what is told of an event, and `svg_text` with drawings. The layer above begins a
//! chart by `Chart::at_boot`, tells it each event by `tell`, which makes `chart_after` of `specs/Chart.antt` of it, and
//! takes the whole drawing from `drawing`.
#![tactic(auto)]

pub mod chart;
mod drawn;
mod frame;
mod groups;
mod keys;
pub mod layout;
mod packets;
mod signs;
pub mod standing;
pub mod ways;

pub use chart::Chart;
pub use layout::Layout;
pub use standing::Standing;
pub use ways::Way;
