//! The lines of a program's numbered statements: by a statement's number one finds where it stands in the program's
//! text.
//!
//! Below stands `tal_tree` with the trees and the order of their numbers. The layer above takes the list of lines from
//! `lines_of`, and relies on the law `lines_are_of_statements`.
#![tactic(auto)]

pub mod laws;
mod lines;

pub use laws::lines_are_of_statements;
pub use lines::lines_of;
