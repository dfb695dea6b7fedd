//! The builder of syntax: from the tokens of a program text to its parts, where the text is of the grammar.
//!
//! Below stand `tal_tokens` for the tokens and `tal_syntax` for the grammar, as data and as the types that are built
//! here. The reader above uses the one clause of `build`.
#![tactic(auto)]

mod expression;
mod expression_parts;
mod first;
mod globals;
mod heading;
mod plain_token;
mod simple;
mod statement;
mod statement_parts;
pub mod stop;
pub mod text;

pub use stop::BuildFault;
pub use text::build;
