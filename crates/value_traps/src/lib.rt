//! Why an expression has no value, or a condition no truth: a divisor is 0, or an index is out of the bounds of its
//! array. Of several traps it is the first one, from the left to the right.
//!
//! Below stand `tal_tree` with the trees and `tal_values` with what values and truths are. The layer above uses that
//! `value_or_trap`, `cell_or_trap` and `truth_or_trap` give just those of `specs/Traps.antt`, and the law that these
//! lack exactly where there is no value; `guards` says which trap is told where there are two.
#![tactic(auto)]

pub mod condition;
pub mod expression;
pub mod guards;
pub mod laws;
pub mod operators;
pub mod trap;

pub use condition::truth_or_trap;
pub use expression::{cell_or_trap, value_or_trap};
pub use laws::a_trap_is_met_where_no_value_is;
pub use trap::ValueTrap;
