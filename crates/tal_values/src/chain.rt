ghost use Rattle.std.specs.Prelude.{◌≡◌, IfOk};
ghost use Rattle.tal_values.specs.Chain.{expr_of, with_tails, cond_of, with_links};

use std::alloc::Global;
use tal_tree::{Cond, Expr, NoMemory, Op, Rel, Spot};

/// What a chain of operators begins with.
#[derive(Clone, Copy)]
pub enum Operand<'a> {
    Number(i16),
    Read(&'a Spot),
    Minus(&'a Expr),
}

/// An operator and its right side.
#[derive(Clone, Copy)]
pub struct Tail<'a> {
    pub op: Op,
    pub right: &'a Expr,
}

/// An expression as its first operand and the operators after it, the outermost first.
#[derive(Drop)]
pub struct ExprChain<'a> {
    pub first: Operand<'a>,
    pub tails: Vec<Tail<'a>>,
}

/// Goes down the left operands of an expression.
pub fn expr_chain(alloc: Global, expr: &Expr) -> Result<ExprChain<'_>, NoMemory>
    ensures { IfOk result (λ chain. with_tails (expr_of chain.first) chain.tails.items ≡ expr.now) }
{
    let mut tails = Vec::new(alloc);
    let mut rest = expr;
    loop {
        match rest {
            Expr::Number(word) => {
                let first = Operand::Number(*word);
                return Ok(ExprChain { first, tails });
            }
            Expr::Read(spot) => {
                let first = Operand::Read(spot.get());
                return Ok(ExprChain { first, tails });
            }
            Expr::Minus(inner) => {
                let first = Operand::Minus(inner.get());
                return Ok(ExprChain { first, tails });
            }
            Expr::Two { op, left, right } => {
                let op = *op;
                let right = right.get();
                tails.push(Tail { op, right })?;
                rest = left.get();
            }
        }
    }
}

/// What a chain of AND and OR begins with.
#[derive(Clone, Copy)]
pub enum Test<'a> {
    Truth(&'a Expr),
    Compare {
        rel: Rel,
        left: &'a Expr,
        right: &'a Expr,
    },
    Not(&'a Cond),
}

/// What stands between two conditions.
#[derive(Clone, Copy)]
pub enum Junction {
    And,
    Or,
}

/// AND or OR and its right side.
#[derive(Clone, Copy)]
pub struct Link<'a> {
    pub junction: Junction,
    pub right: &'a Cond,
}

/// A condition as its first test and what AND and OR put after it, the outermost first.
#[derive(Drop)]
pub struct CondChain<'a> {
    pub first: Test<'a>,
    pub links: Vec<Link<'a>>,
}

/// Goes down the left sides of a condition.
pub fn cond_chain(alloc: Global, cond: &Cond) -> Result<CondChain<'_>, NoMemory>
    ensures { IfOk result (λ chain. with_links (cond_of chain.first) chain.links.items ≡ cond.now) }
{
    let mut links = Vec::new(alloc);
    let mut rest = cond;
    loop {
        match rest {
            Cond::Truth(expr) => {
                let first = Test::Truth(expr);
                return Ok(CondChain { first, links });
            }
            Cond::Compare { rel, left, right } => {
                let rel = *rel;
                let first = Test::Compare { rel, left, right };
                return Ok(CondChain { first, links });
            }
            Cond::Not(inner) => {
                let first = Test::Not(inner.get());
                return Ok(CondChain { first, links });
            }
            Cond::And(left, right) => {
                let right = right.get();
                let junction = Junction::And;
                links.push(Link { junction, right })?;
                rest = left.get();
            }
            Cond::Or(left, right) => {
                let right = right.get();
                let junction = Junction::Or;
                links.push(Link { junction, right })?;
                rest = left.get();
            }
        }
    }
}
