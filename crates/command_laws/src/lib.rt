//! A command whose words, deck and programs are good is never refused: it ends with a run, a sweep or a verdict, unless
//! memory runs out or a read or a write fails; a load is such a command, and one that judges a report of its deck. If
//! advice is asked, each deck has it, or the cause why not. A fault with which a command ends was counted, and what is
//! due of a command is one.
//!
//! Below stand `command_dues`, whose definitions say what is due and how a command ends, `deck_reader`, `verdicts` and
//! `discipline` with the laws that decks and verdicts are one, `advice_laws` with the law that answers are,
//! `report_laws`, by which the verdict on a report is one, `load_laws`, which says what deck the load text is, and
//! `single_runs`, by which a schedule has one run. No code runs here.
#![tactic(auto)]

pub mod laws;

pub use laws::{
    a_deck_has_advice_or_a_cause, a_deck_has_one_report, a_load_is_never_refused, a_load_is_run,
    a_report_of_a_deck_is_verified, an_accepted_deck_is_checked, an_accepted_deck_is_run,
    an_accepted_deck_is_swept, faults_were_counted, no_accepted_deck_is_refused,
    no_accepted_deck_is_refused_a_check, no_accepted_deck_is_refused_a_sweep,
    no_report_of_a_deck_is_rejected, what_is_due_is_one,
};
