//! How many runs of each kind were made: a row of counts for each processor of a site, and the table of these rows.
//! Nothing here takes memory.
//!
//! Below stands `gd_words` with the limits. The layer above uses that a row has the counts of the kinds that were added
//! to it, `row_of`, and that a table has the rows that were put on it, in order.
#![tactic(auto)]

pub mod rows;
pub mod table;

pub use rows::{Row, RunKind};
pub use table::{ProcessorRow, Table};
