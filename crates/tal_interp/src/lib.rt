//! Programs that run: `TalProcess` runs a program by its table, takes no memory in a step and recurses nowhere, and its
//! state goes into the words of a checkpoint and comes back from them.
//!
//! Below stand `tal_table` with the table of a program, `tal_code` with the flat code of its expressions,
//! `process_semantics` with the states and steps of programs, `whole_states` with the states that a program may be in,
//! and `checkpoint_image` with `Behaviour`, which `TalProcess` meets. The layer above runs it as one of the two kinds
//! of processes. A `TalProcess` keeps neither the text of its program nor a reference to it: its program is a value
//! that only clauses see.
#![tactic(auto)]

mod apply;
mod calls;
mod frame;
mod image;
mod inner;
mod interpreter;
mod locals;
pub mod process;

pub use gd_words::{DeviceCall, List, NoMemory, Sector, Words};
pub use process::TalProcess;
pub use process_semantics::{Asked, Point};
pub use tal_tree::Kind;
