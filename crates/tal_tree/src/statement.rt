use crate::expression::{Cond, Expr, Spot, Variable};
use gd_words::List;

/// A numbered statement: its number from 1 through the whole program, and its line in the text.
#[cycle(statement)]
#[derive(Drop)]
pub struct Statement {
    pub number: u16,
    pub line: u32,
    pub what: What,
}

/// What a statement does. The empty statement and BEGIN .. END stand for no statement of their own.
#[cycle(statement)]
#[derive(Drop)]
pub enum What {
    Assign {
        to: Spot,
        value: Expr,
    },
    /// The value of a procedure of the program goes to the target.
    AssignCall {
        to: Spot,
        procedure: u16,
        arguments: List<Expr>,
    },
    If {
        test: Cond,
        yes: List<Statement>,
        no: List<Statement>,
    },
    While {
        test: Cond,
        body: List<Statement>,
    },
    /// The statement's number is that of the first assignment, its test has the next number, and `last` is that of the
    /// last assignment, which adds `step`, 1 to 32,767, to the variable, or takes it away where the FOR counts down.
    For {
        variable: Variable,
        from: Expr,
        to: Expr,
        down: bool,
        step: i16,
        body: List<Statement>,
        last: u16,
    },
    /// The statement's number and line are those of its test, which comes after the body. The body is done again until
    /// the test is true.
    DoUntil {
        body: List<Statement>,
        test: Cond,
    },
    Call {
        procedure: u16,
        arguments: List<Expr>,
    },
    Return(Option<Expr>),
    ReadUpdate {
        buffer: u16,
        most: Expr,
        got: Variable,
    },
    Reply {
        buffer: u16,
        count: Expr,
    },
    WriteRead {
        file: u8,
        buffer: u16,
        send: Expr,
        room: Expr,
        got: Variable,
    },
    Checkpoint {
        items: List<u16>,
        files: List<u8>,
    },
    CheckMonitor,
    /// The file's number, in the order of the OPENs.
    Open(u8),
    Stop,
}
