//! Whether a schedule is calm: it loses no packet, and stops one processor at most.
//!
//! Below stands `schedule` with the lines as data. The layer above reads them from a deck and calls `is_calm`; laws on
//! what is played in a calm schedule use its definition, `IsCalm`.
#![tactic(auto)]

pub mod calm;
pub mod guards;

pub use calm::is_calm;
