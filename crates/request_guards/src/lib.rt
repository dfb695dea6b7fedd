//! Guards of requests: how a number stands to a receive table, which replies are kept, which tables fit, what changed
//! in a table and which changes fit, which requests wait, and which writes are done, each at telling points. A wrong
//! definition is refused here.
//!
//! Below stand `checkpoint_image`, `disc_device`, `file_calls` and `sync_ids`, whose definitions are guarded; nothing
//! stands above.
#![tactic(auto)]

pub mod changes;
pub mod standing;
pub mod tables;
pub mod waiting;
pub mod writes;
