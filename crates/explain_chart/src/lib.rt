//! What is told of a deck where its chart is asked for: that, as one SVG, or why a program of it is refused.
//!
//! Below stand `explain_why` with what is told of refused programs, `charted_runs` with the run that is drawn,
//! `traced_decks` with where statements stand, and `svg_text` with the text of a drawing. The layer above uses
//! `chart_deck`, which does what `IsChartDeck` of `specs/DeckCharts.antt` says.
#![tactic(auto)]

pub mod chart;
pub mod scope;

pub use chart::chart_deck;
pub use charted_runs::ChartFault;
pub use scope::Scope;
pub use traced_decks::{Manner, Places, Span, TraceFault, places_of, trace_deck};
