//! A table of names, each once and in order, with what stands under each.
//!
//! Below stand `gd_words`, which has the names, and `indexmap`, by which they are found. The layer above sees a table
//! as the list of its names with what stands under them, and uses that `contains` and `place_of` answer by that list
//! and that `push` puts a new name after the last.
#![tactic(auto)]

pub mod table;

pub use table::NameTable;
