//! Who waits for whom in a ring: each awaits the next, and the last awaits the first.
//!
//! Below stands `gd_words` with lists. The layer above uses `rings`, which tells each ring there is, once, from its
//! lowest number on (`TellsRings` of `specs/Waits.antt`); as a function that is `rings_of` of `specs/Rings.antt`.
//! `guards` says what is told where two or three wait for each other.
#![tactic(auto)]

pub mod guards;
pub mod laws;
pub mod waits;

pub use laws::each_ring_is_told_once;
pub use waits::rings;
