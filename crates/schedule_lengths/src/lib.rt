//! How many events a schedule asks for at most, and that those of a deck's schedule are far fewer than numbers of 32
//! bits. No code runs here.
//!
//! Below stand `schedule_runs` and `deck_reader`. A schedule is played (`Plays` of `schedule_loop`) by the `pair_rules`
//! of `schedule_runs`, whose `most_events` says how many events it asks for at most. The law `a_deck_keeps_the_limits`
//! of `deck_reader` gives the limits. The layer above, which runs the schedule of a deck, uses
//! `a_schedule_asks_for_few_events`.
#![tactic(auto)]

pub mod laws;

pub use deck_reader::{Deck, a_deck_keeps_the_limits};
pub use laws::{
    a_bus_has_room_for_its_packets, a_schedule_asks_for_few_events,
    a_schedule_asks_for_so_many_events,
};
