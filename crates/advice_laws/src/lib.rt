//! Laws of advice: lists and depths change no path, so the advice for a program is accepted and contained in every
//! choice that is, and what it can't mend no choice mends. No code runs here.
//!
//! Below stands `advice` with the definitions. The layer above uses the laws of this crate's public functions, first of
//! all `advice_is_least`.
#![tactic(auto)]

pub mod laws;

pub use laws::{
    accepted_choices_contain_advice, advice_is_accepted, advice_is_least, answers_are_one,
    choices_change_no_answer, choices_change_no_path, longer_lists_are_accepted,
    what_is_due_may_be_named, what_is_unmendable_stays_refused,
};
