//! Why no running processor is missed in a calm schedule, on whatever machine whose nodes watch each other by I'm-alive
//! packets over two buses. No code runs here.
//!
//! Below stand `round_laws` with the turns of a round, `alive_regroup` with what a node knows of the others, and
//! `calm_schedules`. The layer above shows that its nodes watch each other (`specs/Watched.antt`).
#![tactic(auto)]

pub mod laws;

pub use laws::{a_calm_schedule_stops_nobody_at_a_tick, a_turn_keeps_alive_packets_fresh};
