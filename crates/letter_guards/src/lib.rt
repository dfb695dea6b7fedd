//! Guards of letters: where routes lead before and after a mark, what a mark sends again and in which order, what is
//! owed after it, and what isn't dropped, each at telling points. A wrong definition is refused here.
//!
//! Below stand `letters`, whose definitions are guarded, and `computed_changes`; `packet_guards` stands above.
#![tactic(auto)]

pub mod again;
pub mod posts;
pub mod routes;
