//! Why what possible acts show and name is in the form of reports. No code runs here.
//!
//! Below stand `plain_semantics` with the machine of single processes, `whole_states` with what remains of a program,
//! and `told_reports`, which says what a report may tell. Whoever asks whether a report can tell what a run shows cites
//! the law.
#![tactic(auto)]

pub mod laws;

pub use laws::what_possible_acts_show_is_in_form;
