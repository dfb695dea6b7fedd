use explain_chart::{Manner, Scope};
use player::ProcessorStop;

/// What is to be told of a deck.
#[derive(Clone, Copy, PartialEq, Eq)]
pub enum Telling {
    /// Why its programs are refused, or what their CHECKPOINTs send.
    Why,
    /// What is left once it was run, with a stop of a processor where one is given.
    Left(Option<ProcessorStop>),
    /// A run of it that breaks, if a program of it is refused.
    Breaks,
    /// What the events of its run did that this manner tells, with a stop of a processor where one is given.
    Trace {
        stop: Option<ProcessorStop>,
        manner: Manner,
    },
    /// The chart of what a scope has of its run, with a stop of a processor where one is given.
    Chart {
        stop: Option<ProcessorStop>,
        scope: Scope,
    },
}
