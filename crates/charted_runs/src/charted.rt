use chart_drawing::Chart;
use gd_words::NoMemory;
use traced_runs::Ran;

/// A run, and the chart of its events.
#[derive(Drop)]
pub struct Charted {
    pub ran: Ran,
    pub chart: Chart,
}

/// Why a run has no chart.
#[derive(Clone, Copy, PartialEq, Eq, Drop)]
pub enum ChartFault {
    NoMemory(NoMemory),
    /// More events would be drawn than a chart has room for.
    TooLong,
}
