use crate::statement::Statement;
use gd_words::{Ident, List, Name};

/// A program of one process. `main` is the number of its main procedure, counted from 0.
#[derive(Drop)]
pub struct Program {
    pub items: List<Item>,
    pub files: List<FileUse>,
    pub procedures: List<Procedure>,
    pub main: u16,
}

/// A global.
#[derive(Drop)]
pub struct Item {
    pub name: Ident,
    pub shape: Shape,
}

/// What a global is: one word, an array from its low bound to its high one, or the variable of a file.
#[derive(Clone, Copy, PartialEq, Eq)]
pub enum Shape {
    Simple,
    Array { low: i16, high: i16 },
    File(u8),
}

/// A file of a program, in the order of the OPENs: the item that stands for it, what it is opened to, and how many
/// replies are kept for it.
#[derive(Drop)]
pub struct FileUse {
    pub item: u16,
    pub target: Target,
    pub depth: u8,
}

/// What a file is opened to.
#[derive(Clone, Copy, PartialEq, Eq)]
pub enum Target {
    Receive,
    Process(Name),
}

/// A procedure: whether it gives a value, how many parameters it has, and its locals, parameters first.
#[derive(Drop)]
pub struct Procedure {
    pub name: Ident,
    pub gives: bool,
    pub parameters: u8,
    pub locals: List<Ident>,
    pub body: List<Statement>,
}
