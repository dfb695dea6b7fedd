//! Why every letter that is ever sent fits the layout of messages and names what its site has. No code runs here.
//!
//! Below stand `message_layout` with the layout, and `takeover_laws`, `plain_histories` and `letter_laws` with what is
//! known of runs. The layer above uses `letters_fit` and `changes_fit`.
#![tactic(auto)]

pub mod laws;
