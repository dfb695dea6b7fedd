//! Guards of reading: which programs telling texts with loops read as, and for which fault such a text is refused. A
//! wrong definition of what a statement stands for is refused here.
//!
//! Below stands `tal_reader`, whose definitions are guarded, with those of the crates that it stands on; nothing stands
//! above.
#![tactic(auto)]

pub mod loops;
