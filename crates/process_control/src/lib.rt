//! One copy of a process: `CopyControl`, its role, era and numbers, the process that runs, its receive table and the
//! numbers of its files. A copy acts, sends a checkpoint and passes it, or watches and applies what comes, as it is or
//! as what changed, whole or not at all, and takes over.
//!
//! Below stand `checkpoint_image` with `Behaviour` and checkpoints, `sync_ids` with `Receive` and `Asker`,
//! `world_semantics` and `computed_changes` with the definitions of a core and of what fits it, and `whole_states` and
//! `process_images`, whose laws keep the state of every copy in order. The layer above uses that each call changes a
//! copy exactly as `specs/Copies.antt` and `specs/Cores.antt` say, in the words of the world of copies, that no error
//! changes it, and that only `start` and `checkpoint_out` take memory.
#![tactic(auto)]

mod checkpoints;
pub mod control;
mod files;
pub mod guards;
mod inside;
pub mod laws;
pub mod told;

pub use control::CopyControl;
pub use laws::a_process_at_its_beginning_can_start;
pub use told::{Answering, Asking};
