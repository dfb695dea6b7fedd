//! What whole drain rounds do, on whatever machine with two buses that a schedule is played on: each delivers all that
//! was on the buses as it began. No code runs here.
//!
//! Below stand `player` with the events of a round and `agendas` with what it means that a schedule is played. The
//! layer above shows that its machine has two buses (`specs/Buses.antt`), and uses the lemmas of `proofs/` for it.
#![tactic(auto)]

pub mod laws;

pub use laws::{
    a_stretch_is_made_of_whole_rounds, a_turn_is_of_six_kinds, a_whole_round_delivers_all,
};
