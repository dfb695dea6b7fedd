//! The tokens of a program text: names, numbers, strings, keywords and symbols, each with its place. Comments are none.
//!
//! Below stand `gd_words` for identifiers and lists and `tal_tree` for places, faults and what a string opens. The
//! reader of programs above uses the one clause of `tokens`: its answer is `tokens_of`, the tokens of the text as they
//! are defined.
#![tactic(auto)]

mod begun;
mod comment;
mod cursor;
pub mod lexer;
mod number;
mod run;
mod symbol;
mod text;
pub mod token;
mod word;

pub use lexer::{TokenList, tokens};
pub use tal_tree::{
    Boxed, Ident, List, MOST_LEVELS, Name, NoMemory, Place, ProgramLimit, TalFault,
};
pub use token::{At, Token};
