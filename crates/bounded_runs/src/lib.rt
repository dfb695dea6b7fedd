//! Bounded delivery in runs over packets, and that no running processor is stopped in clear runs of calm schedules. No
//! code runs here.
//!
//! Below stand `packet_rounds` and `calm_runs` with why that is so on whatever is played, and `packet_runs` with the
//! runs of a schedule (`IsRunOf`). Drain rounds don't look at the packet that an event concerns, so what they say holds
//! of these runs. The layer above has a run, and uses the laws.
#![tactic(auto)]

pub mod guards;
pub mod laws;

pub use guards::{
    clear_stretches_join, drain_and_until_make_drain_rounds, what_is_not_played_changes_nothing,
};
pub use laws::{
    a_clear_run_of_a_calm_schedule_stops_nobody, a_drain_round_of_a_run_delivers_all,
    a_run_is_played_to_a_moment, six_clear_rounds_of_a_run_end_a_piece,
};
