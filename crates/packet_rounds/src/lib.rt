//! What drain rounds do over packets: each delivers all that was on both buses, and four of them that are clear end
//! each piece that was outstanding. No code runs here.
//!
//! Below stands `round_laws` with the rounds of any machine. By `packets_laws` what is played goes on in the net of
//! channels, and by `channel_laws` four rounds of a net end a piece.
#![tactic(auto)]

pub mod guards;
pub mod laws;

pub use laws::{
    a_round_over_packets_delivers_all, four_clear_rounds_end_a_piece, six_clear_rounds_end_a_piece,
};
