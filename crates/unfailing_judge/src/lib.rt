//! Whether what a run kept and showed is what unfailing processes do and show, and else what goes wrong.
//!
//! Below stands `plain_machine`, on which the kept acts are made one by one. What a refused program does may be kept
//! late, since its take is held until its CHECKPOINT. So the acts are made in an order in which they are possible, if
//! there is one. The layer above uses `wrong_in`: what it answers is judged by `IsJudged` of `specs/Sound.antt`.
#![tactic(auto)]

mod beside;
pub mod judge;
pub mod laws;
mod replay;
mod same;
mod settle;
mod turns;
pub mod wrong;

pub use judge::wrong_in;
pub use wrong::{Apart, Stuck, Wrong};
