//! The plain data that the readers make and the machines run: programs of the TAL dialect as trees, sites with their
//! processes and terminals, the acts of processes and what they show, and the faults of program texts and decks.
//!
//! Below stands `gd_words`, whose `List` and `Boxed` make every type here a plain value in a contract. The crates above
//! match on these types in their definitions, and where such a definition recurs, they take from `specs/Rows.antt` what
//! it says of one more layer. A call here lets a tree go, or gives the number of a limit.
#![tactic(auto)]

pub mod act;
pub mod expression;
pub mod fault;
pub mod limit;
pub mod place;
pub mod program;
pub mod site;
pub mod statement;

pub use act::{Act, Shown};
pub use expression::{Cond, Expr, Op, Rel, Spot, Variable};
pub use fault::{DeckFault, TalFault};
pub use gd_words::ident::is_ident_sign;
pub use gd_words::limits::{
    MOST_DEPTH, MOST_FILES, MOST_LEVELS, MOST_LOCALS, MOST_MESSAGE_WORDS, MOST_PROCEDURES,
    MOST_PROCESSES, MOST_REQUESTS, MOST_STATEMENTS, MOST_TERMINALS,
};
pub use gd_words::{
    Boxed, DeviceCall, Ident, List, Name, NoMemory, Sector, Words, div_trunc, wrap_add, wrap_mul,
    wrap_neg, wrap_sub,
};
pub use limit::{DeckLimit, ProgramLimit};
pub use place::Place;
pub use program::{FileUse, Item, Procedure, Program, Shape, Target};
pub use site::{Kind, OpenerSpec, ProcessSpec, Site, TerminalSpec, Who};
pub use statement::{Statement, What};
