//! Decks whose programs are accepted: their sites meet the premises of the laws of kept acts and of idle ends, the
//! machine over packets starts on them, their schedules can be played there, and what these run keeps possible acts. No
//! code runs here.
//!
//! Below stand `deck_reader` with the laws of decks, `loading_laws` and `verdicts` with what is known of their
//! programs, `packets_played` with the laws of what is played over packets, `packet_runs` with the runs of schedules,
//! and `packet_lengths` with how long they are and that they can be played. The layer above, which reads a deck, judges
//! its programs and runs its schedule, uses the lemmas of both laws.
#![tactic(auto)]

pub mod decks;
pub mod runs;

pub use decks::an_accepted_deck_meets_the_premises;
pub use packet_lengths::Deck;
pub use runs::a_run_of_an_accepted_site_keeps_possible_acts;
