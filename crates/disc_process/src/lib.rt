//! The process of a disc: it takes a request, checkpoints, acts on its device and answers, in turn.
//!
//! Below stand `process_semantics` with the states and steps of discs, as definitions, and `checkpoint_image` with
//! `Behaviour`, which `DiscProcess` meets. A disc that runs is a `Phase`, which has the words that it still needs and
//! no others, and the number of its last write. The layer above runs it as one of the two kinds of processes.
#![tactic(auto)]

mod calls;
mod image;
mod phase;
pub mod process;
mod progress;

pub use checkpoint_image::{Behaviour, Listed};
pub use process::DiscProcess;
