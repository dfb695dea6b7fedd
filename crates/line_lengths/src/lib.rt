//! How many events the lines of a schedule ask for at most, on whatever machine whose buses have room for so many
//! packets. No code runs here.
//!
//! Below stands `schedule_loop` with what a schedule plays on a machine. The layer above knows how much room its buses
//! have, and uses `a_schedule_asks_for_so_many_events`.
#![tactic(auto)]

pub mod laws;

pub use laws::a_schedule_asks_for_so_many_events;
