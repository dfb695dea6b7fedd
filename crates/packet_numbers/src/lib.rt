//! That the machine over packets is ready for each event, while fewer events were played than there are numbers of 32
//! bits. No code runs here.
//!
//! Below stand `packet_wires` with what is played, and `site_machine` with what an event requires (`IsReady`). The
//! layer above gets that from `accepted_sites_are_ready`.
#![tactic(auto)]

pub mod laws;

pub use packets_played::{an_idle_end_that_is_played_leaves_none, what_is_played_is_possible};
