//! Guards of charts: what is drawn at telling points, and words as they are escaped. A wrong definition is refused
//! here. No code runs, and nothing stands on this crate.
//!
//! Below stand `chart_drawing` and `svg_text`, whose definitions are guarded.
#![tactic(auto)]

pub mod copies;
pub mod events;
pub mod packets;
pub mod words;
