//! Programs printed as texts of the grammar: one declaration a line, each IF with an ELSE, parentheses and BEGIN .. END
//! only where the tree needs them.
//!
//! Below stand `tal_tree` for the trees and `tal_pieces`, which says what is printed and why it reads back. The layer
//! above calls `print_program`: its contract pins the text, and says that the text reads as the same program but for
//! the lines of its statements.
#![tactic(auto)]

mod expressions;
mod layout;
mod names;
mod page;
mod printer;
mod procedures;
mod statements;
mod system_calls;
mod work;

pub use printer::print_program;
