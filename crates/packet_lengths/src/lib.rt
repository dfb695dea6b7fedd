//! How many events a schedule asks for over packets, and that a schedule of an accepted site can be played. No code
//! runs here.
//!
//! Below stand `line_lengths` with how many events lines ask for on any machine, `packet_runs` with the runs of a
//! schedule, and `packet_numbers` with the law that the machine is ready. The layer above, which runs the schedule of a
//! deck, uses `a_schedule_asks_for_few_events` and `an_accepted_site_can_be_played`.
#![tactic(auto)]

pub mod laws;

pub use deck_reader::{
    Deck, a_deck_keeps_the_limits, a_deck_reads_its_programs, requests_of_a_deck_are_short,
};
pub use laws::{
    a_bus_has_room_for_its_packets, a_schedule_asks_for_few_events,
    a_schedule_asks_for_so_many_events, an_accepted_site_can_be_played,
};
pub use packet_numbers::{an_idle_end_that_is_played_leaves_none, what_is_played_is_possible};
pub use packet_runs::events_of_a_schedule_are_played;
