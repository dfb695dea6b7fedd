//! A schedule played on the machine over packets to its end, of which each event is told to a chart as it is played.
//!
//! Below stand `traced_runs` with the machine and what its runs are, `event_findings` with what an event did, and
//! `chart_drawing` with the chart. The layer above uses that the chart that `chart_run` makes is that of the events
//! that the schedule asks for, and that these are those of a run of `packet_runs` (`Charts` of `specs/Charts.antt`).
#![tactic(auto)]

pub mod charted;
mod events;
pub mod running;

pub use charted::{ChartFault, Charted};
pub use running::chart_run;
pub use traced_runs::{Span, sizes_of};
