//! A plain program that runs: it goes along the trees of its statements as they stand, and evaluates each expression
//! anew.
//!
//! Below stands `process_semantics` with the states and steps of programs, and `Execution` makes exactly these steps.
//! It is slow and takes memory as it goes: no machine runs on it, but tests compare what does with it.
#![tactic(auto)]

mod calls;
pub mod execution;
pub mod frame;
mod image;
mod inner;

pub use execution::Execution;
pub use frame::{Frame, Frames};
