//! Laws of the order in which kept acts are judged: no other order would do where that one doesn't. No code runs here.
//!
//! Below stand `unfailing_judge` with that order and with what goes wrong in it, `plain_semantics` with the machine of
//! single unfailing processes, and `plain_histories` with its openers. Whoever asks whether a run that is told to go
//! wrong might be right in another order cites `what_goes_wrong_does_so_in_every_order`.
#![tactic(auto)]

pub mod laws;

pub use laws::{
    any_sound_order_is_found, possible_acts_commute, sound_acts_have_an_order,
    what_goes_wrong_does_so_in_every_order,
};
