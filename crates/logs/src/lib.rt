//! Three containers that contracts see as plain values: `Log`, what happened with the newest first; `GhostLog`, the
//! same list of which a program keeps no item; and `Shared`, a value that several owners hold together.
//!
//! Below stands `gd_words` with `NoMemory`. The layers above use that a `Log` and a `GhostLog` are the lists of their
//! items, and a `Shared` its value. So contracts name all messages ever sent, as the definitions of a world do, and a
//! run takes no memory for them. What several owners hold stands in memory once.
#![tactic(auto)]

pub mod ghost_log;
pub mod log;
pub mod shared;

pub use gd_words::limits::TERMINAL_NODE;
pub use gd_words::{NoMemory, Reply, Request};
pub use ghost_log::GhostLog;
pub use log::Log;
pub use shared::Shared;
