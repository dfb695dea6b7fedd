//! The recogniser of program texts: whether tokens are a text of the grammar, and if not, the first token after which
//! no text goes on, or the first that stands too deep.
//!
//! Below stand `tal_tokens` for the tokens and `tal_syntax` for the grammar and for what a judgement means. The reader
//! above uses the one clause of `judge`, and builds the syntax of a text that is fine.
#![tactic(auto)]

mod declaration_table;
mod expression_table;
pub mod judgement;
mod recogniser;
mod stack;
mod statement_table;
mod symbol;
mod table;
mod wanted_table;

pub use judgement::Judgement;
pub use recogniser::{judge, tokens_are_judged_once};
