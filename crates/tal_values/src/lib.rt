//! Values of expressions and truths of conditions: what they are, over the whole tree, and the calls that find them.
//!
//! Below stand `gd_words` with its wrapped arithmetic and `tal_tree` with the trees. The layer above uses `value_of`,
//! `truth_of` and `cell_of` of `specs/Value.antt` in its own definitions, and that `value`, `truth` and `cell` give
//! just these; `operators` has what one operator does, for whoever evaluates in another order.
#![tactic(auto)]

pub mod chain;
pub mod condition;
pub mod expression;
pub mod memory;
pub mod operators;

pub use condition::truth;
pub use expression::{cell, value};
pub use memory::{Cell, Memory};
pub use tal_tree::{
    DeviceCall, FileUse, Item, Kind, List, MOST_DEPTH, MOST_FILES, MOST_MESSAGE_WORDS,
    MOST_PROCESSES, MOST_REQUESTS, MOST_TERMINALS, Name, NoMemory, OpenerSpec, ProcessSpec, Sector,
    Shape, Site, Statement, Target, TerminalSpec, Variable, Who, Words,
};
