//! The search for a stop of a processor with which a run of a deck's schedule isn't one of unfailing processes. The
//! programs need not be accepted: the machine over whole messages runs any.
//!
//! Below stand `schedule_runs` with the runs, `unfailing_judge` with what goes wrong in what they keep and show, and
//! `break_progress` with what is told meanwhile. The layer above uses `search_breaks`, whose answer is `IsSearch` of
//! `specs/Breaks.antt`: the first of the stops that are tried, in their order, with which a run breaks, or that none
//! does. `IsToldSearch` of `specs/Meanwhile.antt` says what is told on the way.
#![tactic(auto)]

pub mod found;
pub mod laws;
pub mod searching;
pub mod stops;
pub mod tried;

pub use break_progress::runs_of;
pub use found::{Break, Search, StopBreak};
pub use laws::a_run_does_few_acts;
pub use searching::search_breaks;
pub use unfailing_judge::{Apart, Stuck, Wrong};
