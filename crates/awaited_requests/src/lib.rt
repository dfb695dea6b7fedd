//! Requests whose replies are awaited: that the depth to which a server keeps replies is enough, so that such a request
//! stands next, in hand or kept at each copy of its server that isn't gone or blank, whatever was taken over and loaded
//! again; where copies are seated; and what it means that every awaited request is served.
//!
//! Below stand `takeover_laws` with the invariant of runs and `letters` with what is owed. The crates above show that
//! every awaited request is served in what machines play, and that nothing is left at an idle end. No code runs here.
#![tactic(auto)]

pub mod guards;
pub mod laws;

pub use laws::{awaited_requests_stand_at_their_server, copies_stay_seated};
