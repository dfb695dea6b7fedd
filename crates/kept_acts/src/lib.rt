//! The acts that a run keeps. `KeptActs` is these acts, and tells without a walk how many of them are a process's own;
//! `CopyShare` is what a copy has to do with them: its position and the acts that it holds back.
//!
//! Below stand `logs` with `Log`, and `world_semantics` with the definition of the kept acts. The layer above uses that
//! `KeptActs` is the list of the kept acts with the newest first, as in the world of copies, and that each call of
//! `CopyShare` changes position, held acts and kept acts exactly as that world's `Shares` say. If memory runs out,
//! nothing changes.
#![tactic(auto)]

mod counting;
pub mod guards;
pub mod kept;
pub mod laws;
pub mod share;

pub use kept::KeptActs;
pub use share::CopyShare;
pub use world_semantics::Role;
