//! A program as a table: a node for each of its numbers, which has what is done there as flat code, and the numbers
//! that come next; and a heading for each procedure.
//!
//! Below stand `tal_tree` with programs, `tal_code` with the flat code of their expressions, `checkpoint_image` with
//! what a checkpoint names, and `program_deeds`, which says what is done where something remains of a program. To the
//! layer above a `Table` is its `Program`, though it keeps none of its text: a node does what `deed_of` reads off what
//! remains at its number (`Tells` of `specs/Tables.antt`), a heading says where its procedure begins (`Heads`), and
//! `is_in` whether a number tells what remains in a procedure. So what runs on a table keeps numbers where the
//! definition keeps what remains.
#![tactic(auto)]

mod everything;
mod fill;
mod load;
pub mod node;
pub mod table;
mod works;

pub use checkpoint_image::{Behaviour, Listed};
pub use node::{Heading, Node, Work};
pub use table::Table;
pub use tal_code::{Code, cell, truth, value};
