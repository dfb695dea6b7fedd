//! What both ends of channels promise together, among any number of nodes, with packets that are lost, repeated, late
//! and in any order, and nodes that stop and are marked down.
//!
//! Below stand `packet_words` and `link_control` with the definition of one end. The layers above keep a net whole
//! event by event (`nets_stay_whole`) and read off it what was handed over, what is in flight, and when a piece has
//! ended. No code runs here.
#![tactic(auto)]

pub mod laws;

pub use laws::{
    a_round_brings_a_piece_on, ends_stay_together, four_rounds_end_a_piece,
    nets_hand_over_in_order, nets_stay_whole, numbers_rise_one_by_one, packets_fit_the_layout,
};
