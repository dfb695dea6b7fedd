use tal_tokens::{At, Ident, List};

/// `number | name`
#[derive(Clone, Copy)]
pub enum Atom {
    Number(At, i16),
    Name(At, Ident),
}

/// `[ "-" ] atom`
#[derive(Clone, Copy)]
pub enum Constant {
    Positive(Atom),
    Negative(At, Atom),
}

/// `[ "[" constant ":" constant "]" ]`
#[derive(Clone, Copy)]
pub enum Bounds {
    Simple,
    Array(At, Constant, At, Constant, At),
}

/// `name bounds`
#[derive(Clone, Copy)]
pub struct Item {
    pub at: At,
    pub name: Ident,
    pub bounds: Bounds,
}

/// `"," item`
#[derive(Clone, Copy)]
pub struct NextItem {
    pub comma: At,
    pub item: Item,
}

/// `name "=" constant`
#[derive(Clone, Copy)]
pub struct Literal {
    pub at: At,
    pub name: Ident,
    pub equal: At,
    pub constant: Constant,
}

/// `"," literal`
#[derive(Clone, Copy)]
pub struct NextLiteral {
    pub comma: At,
    pub literal: Literal,
}

/// `INT item { "," item } ";"`
#[derive(Drop)]
pub struct IntLine {
    pub int: At,
    pub first: Item,
    pub more: List<NextItem>,
    pub end: At,
}

/// `LITERAL literal { "," literal } ";"`
#[derive(Drop)]
pub struct LiteralLine {
    pub word: At,
    pub first: Literal,
    pub more: List<NextLiteral>,
    pub end: At,
}

/// A line of globals.
#[derive(Drop)]
pub enum Globals {
    Int(IntLine),
    Literal(LiteralLine),
}

/// `"," name`
#[derive(Clone, Copy)]
pub struct NextName {
    pub comma: At,
    pub at: At,
    pub name: Ident,
}

/// `name { "," name }` in parentheses
#[derive(Drop)]
pub struct ParameterList {
    pub start: At,
    pub at: At,
    pub name: Ident,
    pub more: List<NextName>,
    pub close: At,
}

/// `[ "(" name { "," name } ")" ]`
#[derive(Drop)]
pub enum Parameters {
    Absent,
    Listed(ParameterList),
}

/// `INT name { "," name } ";"`
#[derive(Drop)]
pub struct Local {
    pub int: At,
    pub at: At,
    pub name: Ident,
    pub more: List<NextName>,
    pub end: At,
}

/// `[ INT ]`
#[derive(Clone, Copy)]
pub enum Gives {
    Nothing,
    Int(At),
}

/// `[ MAIN ]`
#[derive(Clone, Copy)]
pub enum Main {
    Absent,
    Word(At),
}

/// `gives PROC name parameters main ";"`
#[derive(Drop)]
pub struct Heading {
    pub gives: Gives,
    pub proc_at: At,
    pub at: At,
    pub name: Ident,
    pub parameters: Parameters,
    pub main: Main,
    pub end: At,
}
