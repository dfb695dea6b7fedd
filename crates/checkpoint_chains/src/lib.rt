//! Why a checkpoint may go as what changed since the one before it: in a run the checkpoints of a process are numbered
//! one by one, each comes of the one before it by taking and answering, and a copy that watches has the receive table
//! of the one that it applied last. No code runs here.
//!
//! Below stand `letter_laws` with what is known of runs and letters, `computed_changes` with what a checkpoint does
//! that comes as what changed, and `change_layout`, by whose law a change makes its checkpoint of the table of the one
//! before. The layer above uses `a_change_does_what_its_checkpoint_does`.
#![tactic(auto)]

pub mod laws;
