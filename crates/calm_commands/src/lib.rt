//! A command that makes a clear run of a calm schedule never ends since a second processor would stop. No code runs
//! here.
//!
//! Below stand `bounded_runs` with that law on runs, and `command_laws` with how a command ends whose words and deck
//! are good.
#![tactic(auto)]

pub mod laws;

pub use laws::{
    a_calm_run_is_not_ended_by_a_second_stop, a_calm_run_without_faults_is_idle_or_cut,
};
