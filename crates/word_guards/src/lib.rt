//! Guards of what stands lowest: the values that lists, wrapped arithmetic, names and expressions have at telling
//! points. A wrong definition is refused here.
//!
//! Below stand `gd_words`, `tal_tree` and `tal_values`, whose definitions are guarded; nothing stands above.
#![tactic(auto)]

pub mod members;
pub mod names;
pub mod values;
pub mod words;
