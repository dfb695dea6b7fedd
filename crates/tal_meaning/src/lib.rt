//! The tree of a text without faults.
//!
//! Below stand `tal_rules`, which judges a text, `tal_declarations` and `tal_names`, which say what it declares and
//! what its names stand for, `tal_syntax` for the syntax of texts, and `tal_tree` for the tree. The layer above uses
//! `tree`: its contract says that a program is answered exactly for a text without faults, and that it is the text's
//! program; else the least of the text's faults is answered.
#![tactic(auto)]

pub mod call;
pub mod expression;
pub mod program;
pub mod statement;

pub use program::tree;
