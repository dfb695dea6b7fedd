//! Changes of the world of copies, computed: what a message does that is handed over, a terminal that enters, a
//! processor that stops or is loaded again, and a node that marks one. `world_semantics` has the same for a process
//! that runs.
//!
//! Below stand `world_semantics`, whose rules say which changes are permitted, and `sync_ids`, whose tables say which
//! checkpoints fit. The layer above computes these functions, and uses the laws of this crate: what is computed is
//! permitted, and in a run nothing else is, but for a checkpoint that doesn't fit, which is ignored. No code runs here.
#![tactic(auto)]

pub mod guards;
pub mod laws;

pub use change_layout::{Asker, ChangeMessage, Receive};
pub use laws::{
    a_handing_has_one_outcome, a_handing_is_computed, a_mark_is_computed, a_reload_is_computed,
    a_sent_checkpoint_fits, a_stop_is_computed, an_entry_is_computed,
    what_copies_send_names_their_process,
};
pub use world_semantics::{ImageMessage, Opener, Role, files_of};
