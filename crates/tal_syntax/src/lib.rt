//! The grammar of program texts: as data of the definitions, with the tokens of each part and how deep each token
//! stands, and as the types that the reader builds, with the view that leads from these to those.
//!
//! Below stand `gd_words` for lists, boxes and identifiers and `tal_tokens` for the tokens. The recogniser above finds
//! the first token after which no text goes on, and the builder builds these types; their contracts name the grammar's
//! data.
#![tactic(auto)]

pub mod declaration;
pub mod expression;
pub mod statement;
pub mod text;

pub use declaration::{
    Atom, Bounds, Constant, Gives, Globals, Heading, IntLine, Item, Literal, LiteralLine, Local,
    Main, NextItem, NextLiteral, NextName, ParameterList, Parameters,
};
pub use expression::{
    Both, Compared, Expr, Factor, Index, Neg, NextBoth, NextFactor, NextNeg, Product, Rel, Scale,
    Sign, Spot, Sum, Term,
};
pub use statement::{
    Answer, Argument, ArgumentList, Arguments, Assign, AssignCall, Call, Direction, ForHead, Next,
    NextArgument, NextValue, Otherwise, Return, Statement, Step, Test, Until,
};
pub use tal_tokens::{At, Ident, List, NoMemory, Place, ProgramLimit, TalFault};
pub use text::{Procedure, Text};
