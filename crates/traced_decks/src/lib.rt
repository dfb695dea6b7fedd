//! The trace of a deck: where its statements stand, and its schedule played with each event told.
//!
//! Below stand `traced_runs` with the run that is told, `accepted_decks` with the law that a deck whose programs are
//! accepted can be run, `deck_lines` and `statement_lines` with the lines, and `finding_text` with the line of a pair.
//! The layer above uses `places_of`, and `trace_deck`, which does what `Traces` of `traced_runs` says of the deck.
#![tactic(auto)]

pub mod places;
pub mod tracing;

pub use accepted_decks::an_accepted_deck_meets_the_premises;
pub use places::places_of;
pub use trace_lines::Places;
pub use traced_runs::{Form, Manner, Ran, Span, TraceFault};
pub use tracing::trace_deck;
