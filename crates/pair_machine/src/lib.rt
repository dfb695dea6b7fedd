//! The machine over whole messages: the world of copies, and the letters on its wires.
//!
//! Below stand `world_copies` with the world, `posted_letters` with the wires, and `message_wires` with what each event
//! makes of a state. The layer above uses that `PairMachine::boot` is the state at the beginning, that an event settles
//! what `play` says (`Settles`), that `is_idle` is the definition's, and that once an allocation was refused the
//! machine answers so for good. An event requires that each number which it raises has a successor, and that each
//! request on the bus names an opener that is there (`specs/Room.antt`).
#![tactic(auto)]

mod delivering;
mod failing;
pub mod pairs;
mod posting;
mod reloading;
mod running;
mod ticking;
mod turning;
mod whole;

pub use pairs::PairMachine;
