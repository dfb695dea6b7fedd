use crate::declaration::{Globals, Heading, Local};
use crate::statement::{Next, Statement};
use tal_tokens::{At, List};

/// `heading { local } BEGIN { local } statement { ";" statement } END ";"`
#[derive(Drop)]
pub struct Procedure {
    pub heading: Heading,
    pub outer: List<Local>,
    pub begin: At,
    pub inner: List<Local>,
    pub first: Statement,
    pub more: List<Next>,
    pub end: At,
    pub last: At,
}

/// `{ globals } { procedure }` and the end of the text
#[derive(Drop)]
pub struct Text {
    pub globals: List<Globals>,
    pub procedures: List<Procedure>,
    pub finish: At,
}
