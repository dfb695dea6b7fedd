//! The rules of program texts: which faults a text's syntax has, as a list whose least one is the answer.
//!
//! Below stand `tal_declarations` for what a text declares and `tal_names` for what its names stand for. The layer
//! above, which builds the tree of a text, uses `judge_text`: its clauses say the least fault of the text, and what its
//! globals, files and procedures are. There it walks the statements again by `enter`, `entered`, `stepped` and
//! `after_call`.
#![tactic(auto)]

pub mod call;
pub mod expression;
pub mod statement;
pub mod text;
pub mod walk;

pub use tal_declarations::files::named_in;
pub use tal_declarations::globals::{atom_of, constant_value};
pub use tal_declarations::heading::{does_give, locals_of, parameters_of};
pub use walk::{Progress, Stage, Walk};
