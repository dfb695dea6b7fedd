use crate::declaration::Constant;
use crate::expression::{Expr, Spot};
use tal_tokens::{At, Boxed, Ident, List, Name};

/// `expr | string`
#[derive(Drop)]
pub enum Argument {
    Value(Expr),
    Receive(At),
    Process(At, Name),
    Quoted(At),
}

/// `"," argument`
#[derive(Drop)]
pub struct NextArgument {
    pub comma: At,
    pub argument: Argument,
}

/// `argument { "," argument }` in parentheses
#[derive(Drop)]
pub struct ArgumentList {
    pub start: At,
    pub first: Argument,
    pub more: List<NextArgument>,
    pub close: At,
}

/// `[ "(" argument { "," argument } ")" ]`
#[derive(Drop)]
pub enum Arguments {
    Absent,
    Listed(ArgumentList),
}

/// `CALL name arguments`
#[derive(Drop)]
pub struct Call {
    pub head: At,
    pub at: At,
    pub name: Ident,
    pub arguments: Arguments,
}

/// `"," expr`
#[derive(Drop)]
pub struct NextValue {
    pub comma: At,
    pub value: Expr,
}

/// `[ expr ]`
#[derive(Drop)]
pub enum Answer {
    Absent,
    Value(Expr),
}

/// `RETURN answer`
#[derive(Drop)]
pub struct Return {
    pub head: At,
    pub answer: Answer,
}

/// `spot ":=" expr`
#[derive(Drop)]
pub struct Assign {
    pub target: Spot,
    pub at: At,
    pub value: Expr,
}

/// `spot ":=" name "(" expr { "," expr } ")"`
#[derive(Drop)]
pub struct AssignCall {
    pub target: Spot,
    pub at: At,
    pub name_at: At,
    pub name: Ident,
    pub start: At,
    pub first: Expr,
    pub more: List<NextValue>,
    pub close: At,
}

/// `IF expr THEN`, or `WHILE expr DO`
#[derive(Drop)]
pub struct Test {
    pub head: At,
    pub test: Expr,
    pub end: At,
}

/// `TO | DOWNTO`
#[derive(Clone, Copy)]
pub enum Direction {
    Up(At),
    Down(At),
}

/// `[ BY constant ]`
#[derive(Clone, Copy)]
pub enum Step {
    One,
    By(At, Constant),
}

/// `FOR name ":=" expr direction expr step DO`
#[derive(Drop)]
pub struct ForHead {
    pub head: At,
    pub at: At,
    pub name: Ident,
    pub set_at: At,
    pub from: Expr,
    pub direction: Direction,
    pub to: Expr,
    pub step: Step,
    pub do_at: At,
}

/// What stands around the statement of `DO statement UNTIL expr`
#[derive(Drop)]
pub struct Until {
    pub head: At,
    pub at: At,
    pub test: Expr,
}

/// A statement. What isn't another statement stands in memory of its own, so that a row of statements stays small.
#[cycle(statement)]
#[derive(Drop)]
pub enum Statement {
    Nothing,
    Block(At, Boxed<Statement>, List<Next>, At),
    If(Boxed<Test>, Boxed<Statement>, Otherwise),
    While(Boxed<Test>, Boxed<Statement>),
    For(Boxed<ForHead>, Boxed<Statement>),
    DoUntil(Boxed<Statement>, Boxed<Until>),
    Call(Boxed<Call>),
    Return(Boxed<Return>),
    Assign(Boxed<Assign>),
    AssignCall(Boxed<AssignCall>),
}

/// `[ ELSE statement ]`
#[cycle(statement)]
#[derive(Drop)]
pub enum Otherwise {
    Absent,
    Else(At, Boxed<Statement>),
}

/// `";" statement`
#[cycle(statement)]
#[derive(Drop)]
pub struct Next {
    pub semicolon: At,
    pub statement: Statement,
}
