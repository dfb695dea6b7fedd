use gd_words::Boxed;

/// A simple variable: a local by its place in the procedure, parameters first, or a global by its item's number.
#[derive(Clone, Copy, PartialEq, Eq)]
pub enum Variable {
    Local(u8),
    Simple(u16),
}

/// What an expression reads and an assignment sets: a simple variable, or an element of a global array. The index is
/// the program's own, which counts from the array's low bound.
#[cycle(expression)]
#[derive(Drop)]
pub enum Spot {
    Local(u8),
    Simple(u16),
    Element { item: u16, index: Expr },
}

/// A value over words. Named constants stand as their numbers. A chain of operators leans to the left and may be as
/// long as the text that spells it, so no function may recurse along left operands.
#[cycle(expression)]
pub enum Expr {
    Number(i16),
    Read(Boxed<Spot>),
    Minus(Boxed<Expr>),
    Two {
        op: Op,
        left: Boxed<Expr>,
        right: Boxed<Expr>,
    },
}

// The chain of left operands is let go by a loop: as a recursion it would end a long chain's program by its stack.
impl Drop for Expr {
    #[cycle(expression)]
    fn drop(mut self) {
        loop {
            match self {
                Expr::Number(_) => return,
                Expr::Read(spot) => match spot.into_inner() {
                    Spot::Local(_) => return,
                    Spot::Simple(_) => return,
                    Spot::Element { item: _, index } => self = index,
                },
                Expr::Minus(inner) => self = inner.into_inner(),
                Expr::Two { op: _, left, right } => {
                    let _right = right.into_inner();
                    self = left.into_inner();
                }
            }
        }
    }
}

/// An operator on two words.
#[derive(Clone, Copy, PartialEq, Eq)]
pub enum Op {
    Add,
    Sub,
    Mul,
    Div,
}

/// A condition. A value stands for whether it isn't 0. Chains of AND and of OR lean to the left as those of values do.
pub enum Cond {
    Truth(Expr),
    Compare { rel: Rel, left: Expr, right: Expr },
    Not(Boxed<Cond>),
    And(Boxed<Cond>, Boxed<Cond>),
    Or(Boxed<Cond>, Boxed<Cond>),
}

impl Drop for Cond {
    fn drop(mut self) {
        loop {
            match self {
                Cond::Truth(_) => return,
                Cond::Compare {
                    rel: _,
                    left: _,
                    right: _,
                } => return,
                Cond::Not(inner) => self = inner.into_inner(),
                Cond::And(left, right) => {
                    let _right = right.into_inner();
                    self = left.into_inner();
                }
                Cond::Or(left, right) => {
                    let _right = right.into_inner();
                    self = left.into_inner();
                }
            }
        }
    }
}

/// A relation of two words.
#[derive(Clone, Copy, PartialEq, Eq)]
pub enum Rel {
    Equal,
    Differs,
    Less,
    AtMost,
    Greater,
    AtLeast,
}
