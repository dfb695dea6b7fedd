//! The requests that wait at a copy of a process: `Waiting`, what comes to it and waits, is dropped or has its reply
//! sent again, which request the process takes next, and how a copy that takes over settles them; and `accepts`, which
//! reply is the awaited one.
//!
//! Below stand `sync_ids`, whose `Receive` tells how a request stands, and `checkpoint_image`, whose definitions say
//! which requests wait and which replies are sent again. The layer above uses that each call of `Waiting` does what
//! those definitions say, that settling until there is no reply leaves and sends what they say of a takeover, and that
//! only `new` takes memory.
#![tactic(auto)]

pub mod awaiting;
pub mod laws;
pub mod waiting;

pub use awaiting::accepts;
pub use laws::settling_repeats_all_kept_replies;
pub use sync_ids::Receive;
pub use waiting::{Arrival, Waiting};
