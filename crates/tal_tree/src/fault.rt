use crate::limit::{DeckLimit, ProgramLimit};
use crate::place::Place;
use gd_words::NoMemory;
use thiserror::Error;

/// Why a program text is refused, and where.
#[derive(Clone, Copy, Debug, PartialEq, Eq, Error)]
pub enum TalFault {
    #[error("{0}: this byte begins no token")]
    BadCharacter(Place),
    #[error("{0}: the number is too large")]
    NumberTooLarge(Place),
    #[error("{0}: the string has no end on its line")]
    OpenString(Place),
    #[error("{0}: the name has more than 31 signs")]
    NameTooLong(Place),
    #[error("{0}: no program has this token here")]
    Expected(Place),
    #[error("{0}: the name isn't declared")]
    Unknown(Place),
    #[error("{0}: the name stands a second time")]
    Twice(Place),
    #[error("{0}: something of another kind has to stand here")]
    WrongKind(Place),
    #[error("{0}: the procedure isn't declared before this one")]
    NotBefore(Place),
    #[error("{0}: the main procedure has to begin with CHECKMONITOR and the OPENs")]
    Prologue(Place),
    #[error("{1}: more than a program may have")]
    Limit(ProgramLimit, Place),
    #[error("{0}: no procedure is MAIN")]
    NoMain(Place),
    #[error("out of memory")]
    NoMemory(NoMemory),
}

/// Why a deck is refused, and on which line, counted from 1.
#[derive(Clone, Copy, Debug, PartialEq, Eq, Error)]
pub enum DeckFault {
    #[error("line {0} is of no form that may stand there")]
    Line(u32),
    #[error("the program after line {0}: {1}")]
    Program(u32, TalFault),
    #[error("line {0}: the name was declared before")]
    NameTwice(u32),
    #[error("line {0} names nothing that is there")]
    UnknownName(u32),
    #[error("line {0}: primary and backup are one processor")]
    SameProcessor(u32),
    #[error("line {0}: there is no such processor")]
    NoProcessor(u32),
    #[error("line {0}: more than a deck may have")]
    Limit(u32, DeckLimit),
    #[error("the deck ends before END, after {0} lines")]
    NoEnd(u32),
    #[error("line {0}: the program opens its own pair")]
    OpensItself(u32),
    #[error("the deck has more than 1,048,576 bytes")]
    TooLong,
    #[error("out of memory")]
    NoMemory(NoMemory),
}

impl From<NoMemory> for TalFault {
    ghost use Rattle.std.specs.Prelude.{◌≡◌};
    ghost use Rattle.tal_tree.specs.declared.fault.TalFault.TheVariants as tal;

    ghost from_gives = { λ memory fault. fault ≡ tal.NoMemory memory };

    fn from(memory: NoMemory) -> TalFault {
        TalFault::NoMemory(memory)
    }
}

impl From<NoMemory> for DeckFault {
    ghost use Rattle.std.specs.Prelude.{◌≡◌};
    ghost use Rattle.tal_tree.specs.declared.fault.DeckFault.TheVariants as deck;

    ghost from_gives = { λ memory fault. fault ≡ deck.NoMemory memory };

    fn from(memory: NoMemory) -> DeckFault {
        DeckFault::NoMemory(memory)
    }
}
