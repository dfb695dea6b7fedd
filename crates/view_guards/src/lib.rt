//! Guards of what a machine tells of itself: each field of a copy, a terminal and a view is told in its own place. A
//! wrong definition is refused here.
//!
//! Below stands `machine_views`, whose definitions are guarded; nothing stands above.
#![tactic(auto)]

pub mod fields;
