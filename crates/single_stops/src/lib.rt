//! A run of a schedule that asks for one stop at most never ends at a second one. No code runs here.
//!
//! Below stand `schedule_runs`, whose definitions say how a run ends, `player` with the events of lines, and
//! `message_wires_laws`, which says what of events stops no processor. The layer above uses `one_stop_has_no_second`.
#![tactic(auto)]

pub mod laws;

pub use laws::one_stop_has_no_second;
