//! Calm schedules over packets: nothing but the one stop that is asked for stops a processor. No code runs here.
//!
//! Below stand `alive_rounds` with why nobody is missed in a calm schedule, and `packet_rounds` with the nets of the
//! states. `single_stops` tells how many stops a schedule still asks for. The layer above gives what its machine
//! counts.
#![tactic(auto)]

pub mod laws;

pub use laws::{a_calm_schedule_does_no_harm, a_calm_schedule_stops_nobody_that_runs};
