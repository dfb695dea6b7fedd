use crate::names::Names;
use tal_syntax::{At, Ident};

/// A name where it stands.
#[derive(Clone, Copy)]
pub struct Named {
    pub at: At,
    pub name: Ident,
}

/// What names stand for in the body of a procedure: the globals and procedures of the whole text, the variables of
/// files, and the procedure's own parameters and locals; and the procedure's number, and whether it gives a value.
#[derive(Drop)]
pub struct Scope {
    pub globals: Names,
    pub files: Names,
    pub locals: Names,
    pub number: u16,
    pub gives: bool,
}
