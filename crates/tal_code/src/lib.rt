//! Expressions and conditions as flat code: lists of steps over a stack of words, made once and run often.
//!
//! Below stand `gd_words` with its wrapped arithmetic, `tal_tree` with the trees, and `tal_values` with what they mean.
//! To the layer above a `Code` is the `Expr` that it computes, a `TestCode` the `Cond` and a `SpotCode` the `Spot`:
//! what `code_of`, `test_code_of` and `spot_code_of` make of a tree is that tree again. `value`, `truth` and `cell`
//! then give just `value_of`, `truth_of` and `cell_of` of `tal_values/specs/Value.antt`, take no memory and recurse
//! nowhere.
#![tactic(auto)]

pub mod code;
mod compile;
mod evaluate;
mod run;
pub mod spot;
mod stack;
mod step;
mod work;

pub use code::{Code, TestCode};
pub use compile::{code_of, limit_code_of, next_code_of, spot_code_of, test_code_of};
pub use evaluate::{cell, truth, value};
pub use spot::SpotCode;
