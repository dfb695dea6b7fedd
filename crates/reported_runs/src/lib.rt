//! What a run writes with its acts is a report that single unfailing processes could have. No code runs here.
//!
//! Below stand `command_dues`, whose definitions say what is due of a run, `report_judge`, which says what a reported
//! run is, `packets_laws` and `packet_runs` with what is known of the processors that stop, and `told_reports`, by
//! which a report is read back. `deck_names`, `deck_forms` and `shown_forms` say that a report of a deck can be.
//! Whoever asks whether a run may write what isn't one cites `what_a_run_writes_is_reported`, and whoever asks whether
//! its report is verified cites `every_report_of_a_run_is_verified`.
#![tactic(auto)]

pub mod laws;

pub use laws::{
    a_report_follows_its_deck, a_report_of_a_run_in_form_is_verified,
    a_report_of_a_run_is_reported, a_run_and_its_report_are_verified,
    every_report_of_a_run_is_verified, what_a_run_writes_is_reported,
};
