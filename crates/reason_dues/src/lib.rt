//! What is due for the reasons of the checkpoint discipline: how much for one of them, as a number, and for which of
//! all anything may be due, as a set.
//!
//! Below stands `path_semantics` with the reasons and with what is due along paths. The layer above, the checker, uses
//! the functions of `amount` for the one reason that it searches, and `Reasons` for all at once; their contracts are
//! values of `specs/Amounts.antt`, and of `specs/Sets.antt`.
#![tactic(auto)]

pub mod amount;
pub mod number_set;
pub mod reasons;

pub use amount::{after_entry, after_return, cut_changed, may_break_at, most_of};
pub use number_set::Numbers;
pub use path_semantics::Reason;
pub use reasons::Reasons;
