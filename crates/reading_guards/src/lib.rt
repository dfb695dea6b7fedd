//! Guards of the lines of a report: what lines tell that are written as reports write them, what isn't told, in which
//! order lines stand, and where a deck ends. A wrong definition is refused here.
//!
//! Below stand `report_reader`, whose definitions are guarded, and `report_guards` with the site that the lines are of;
//! nothing stands above.
#![tactic(auto)]

pub mod reading;
