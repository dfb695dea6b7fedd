//! A process of either kind, as a machine runs it: `Process`, a program or a disc.
//!
//! Below stand `tal_interp` and `disc_process`, whose processes each meet `Behaviour` of `checkpoint_image`. `Process`
//! meets it too, so the machines above run any process by its contract alone.
#![tactic(auto)]

pub mod process;

pub use process::Process;
