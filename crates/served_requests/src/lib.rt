//! Requests that are served: whatever a machine of letters plays, each request whose reply is awaited is owed to its
//! server, or the copy there has seen to it, or the node to which it goes has stopped.
//!
//! Below stand `awaited_requests`, which says what that is, and `letter_laws` with what is known of all letters that
//! were sent. The crates above carry `awaited_requests_stay_served` from event to event, and show by it that nothing is
//! left at an idle end. No code runs here.
#![tactic(auto)]

pub mod laws;

pub use laws::awaited_requests_stay_served;
