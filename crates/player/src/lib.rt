//! Which event comes next on a line of a schedule.
//!
//! Below stand `schedule` with events, lines and counts, and `gd_words` with the limits. The layer above uses that
//! `Player::next` gives exactly the events of the definition (`next_event`), and where it need not know whether the
//! machine is idle.
#![tactic(auto)]

pub mod guards;
pub mod laws;
mod mixed;
pub mod player;
mod round;
mod rule;
pub mod standing;
mod step;
pub mod stop;

pub use gd_words::limits::TERMINAL_NODE;
pub use player::Player;
pub use rule::spared;
pub use standing::{LinePlace, MixedPlace, Place, Rule, Sizes};
pub use stop::ProcessorStop;
