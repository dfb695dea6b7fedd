use tal_tokens::{At, Boxed, Ident, List};

/// `"=" | "<>" | "<" | "<=" | ">" | ">="`
#[derive(Clone, Copy)]
pub enum Rel {
    Equal(At),
    Differs(At),
    Less(At),
    AtMost(At),
    Greater(At),
    AtLeast(At),
}

/// `"+" | "-"`
#[derive(Clone, Copy)]
pub enum Sign {
    Plus(At),
    Minus(At),
}

/// `"*" | "/"`
#[derive(Clone, Copy)]
pub enum Scale {
    Times(At),
    Over(At),
}

/// `both { OR both }`
#[cycle(expression)]
#[derive(Drop)]
pub struct Expr {
    pub first: Both,
    pub more: List<NextBoth>,
}

/// `OR both`
#[cycle(expression)]
#[derive(Drop)]
pub struct NextBoth {
    pub or: At,
    pub both: Both,
}

/// `neg { AND neg }`
#[cycle(expression)]
#[derive(Drop)]
pub struct Both {
    pub first: Neg,
    pub more: List<NextNeg>,
}

/// `AND neg`
#[cycle(expression)]
#[derive(Drop)]
pub struct NextNeg {
    pub and: At,
    pub neg: Neg,
}

/// `NOT neg | sum compared`
#[cycle(expression)]
#[derive(Drop)]
pub enum Neg {
    Not(At, Boxed<Neg>),
    Relation(Sum, Compared),
}

/// `[ rel sum ]`
#[cycle(expression)]
#[derive(Drop)]
pub enum Compared {
    Alone,
    With(Rel, Sum),
}

/// `product { sign product }`
#[cycle(expression)]
#[derive(Drop)]
pub struct Sum {
    pub first: Product,
    pub more: List<Term>,
}

/// `sign product`
#[cycle(expression)]
#[derive(Drop)]
pub struct Term {
    pub sign: Sign,
    pub product: Product,
}

/// `factor { scale factor }`
#[cycle(expression)]
#[derive(Drop)]
pub struct Product {
    pub first: Factor,
    pub more: List<NextFactor>,
}

/// `scale factor`
#[cycle(expression)]
#[derive(Drop)]
pub struct NextFactor {
    pub scale: Scale,
    pub factor: Factor,
}

/// `"-" factor | number | spot | "(" expr ")"`
#[cycle(expression)]
#[derive(Drop)]
pub enum Factor {
    Minus(At, Boxed<Factor>),
    Number(At, i16),
    Spot(Spot),
    Parens(At, Boxed<Expr>, At),
}

/// `name index`
#[cycle(expression)]
#[derive(Drop)]
pub struct Spot {
    pub at: At,
    pub name: Ident,
    pub index: Index,
}

/// `[ "[" expr "]" ]`
#[cycle(expression)]
#[derive(Drop)]
pub enum Index {
    Simple,
    Element(At, Boxed<Expr>, At),
}
