//! Parts of expressions put together from what was found. Parts stand in memory of their own, and none of these
//! functions is on the stack while a part is looked for, so that a level of nesting takes little of the stack.
#![tactic(auto, using(tal_syntax::proofs::SeenSteps::seen_expressions))]

ghost use Rattle.std.specs.Prelude.{◌≡◌, [], ◌∷◌, ◌++◌, IfOk, OnOk};
ghost use Rattle.tal_syntax.specs.Grammar as g;
ghost use Rattle.tal_syntax.specs.Seen.{seen_expr, seen_ors, seen_both, seen_ands, seen_neg, seen_rel, seen_sum};
ghost use Rattle.tal_syntax.specs.Seen.{seen_terms, seen_product, seen_factors, seen_factor, seen_spot, seen_index};
ghost use Rattle.tal_syntax.specs.declared.expression.NextBoth.{roll-NextBoth};
ghost use Rattle.tal_syntax.specs.declared.expression.Term.{roll-Term};

use gd_words::{Boxed, Ident, List, NoMemory};
use std::alloc::Global;
use tal_syntax::{
    Both, Compared, Expr, Factor, Index, Neg, NextBoth, NextFactor, NextNeg, Product, Rel, Scale,
    Sign, Spot, Sum, Term,
};
use tal_tokens::At;

/// `both { OR both }`
#[inline(never)]
pub fn expr_of(
    alloc: Global,
    first: Boxed<Both>,
    more: List<NextBoth>,
) -> Result<Boxed<Expr>, NoMemory>
    ensures { IfOk result (λ e. seen_expr e ≡ g.expr (seen_both first) (seen_ors more)) }
{
    let first = first.into_inner();
    let expr = Boxed::new(alloc, Expr { first, more })?;
    Ok(expr)
}

/// Adds `OR both` at the end.
#[inline(never)]
pub fn add_both(all: &mut List<NextBoth>, or: At, both: Boxed<Both>) -> Result<(), NoMemory>
    ensures { OnOk result (all.new ≡ all.old ++ roll-NextBoth (record { or = or; both = both }) ∷ []) }
{
    let both = both.into_inner();
    all.push(NextBoth { or, both })?;
    Ok(())
}

/// `neg { AND neg }`
#[inline(never)]
pub fn both_of(
    alloc: Global,
    first: Boxed<Neg>,
    more: List<NextNeg>,
) -> Result<Boxed<Both>, NoMemory>
    ensures { IfOk result (λ b. seen_both b ≡ g.both (seen_neg first) (seen_ands more)) }
{
    let first = first.into_inner();
    let both = Boxed::new(alloc, Both { first, more })?;
    Ok(both)
}

/// Adds `AND neg` at the end.
#[inline(never)]
pub fn add_neg(all: &mut List<NextNeg>, and: At, neg: Boxed<Neg>) -> Result<(), NoMemory>
    ensures { OnOk result (all.new ≡ all.old ++ record { and = and; neg = neg } ∷ []) }
{
    let neg = neg.into_inner();
    all.push(NextNeg { and, neg })?;
    Ok(())
}

/// `NOT neg`
#[inline(never)]
pub fn negated_of(alloc: Global, at: At, inner: Boxed<Neg>) -> Result<Boxed<Neg>, NoMemory>
    ensures { IfOk result (λ n. seen_neg n ≡ g.negated at (seen_neg inner)) }
{
    let neg = Boxed::new(alloc, Neg::Not(at, inner))?;
    Ok(neg)
}

/// A sum that isn't compared.
#[inline(never)]
pub fn alone_of(alloc: Global, left: Boxed<Sum>) -> Result<Boxed<Neg>, NoMemory>
    ensures { IfOk result (λ n. seen_neg n ≡ g.relation (seen_sum left) g.alone) }
{
    let left = left.into_inner();
    let neg = Boxed::new(alloc, Neg::Relation(left, Compared::Alone))?;
    Ok(neg)
}

/// `sum rel sum`
#[inline(never)]
pub fn compared_of(
    alloc: Global,
    left: Boxed<Sum>,
    rel: Rel,
    right: Boxed<Sum>,
) -> Result<Boxed<Neg>, NoMemory>
    ensures { IfOk result (λ n. seen_neg n ≡ g.relation (seen_sum left) (g.compared (seen_rel rel) (seen_sum right))) }
{
    let left = left.into_inner();
    let right = right.into_inner();
    let neg = Boxed::new(alloc, Neg::Relation(left, Compared::With(rel, right)))?;
    Ok(neg)
}

/// `product { sign product }`
#[inline(never)]
pub fn sum_of(
    alloc: Global,
    first: Boxed<Product>,
    more: List<Term>,
) -> Result<Boxed<Sum>, NoMemory>
    ensures { IfOk result (λ s. seen_sum s ≡ g.sum (seen_product first) (seen_terms more)) }
{
    let first = first.into_inner();
    let sum = Boxed::new(alloc, Sum { first, more })?;
    Ok(sum)
}

/// Adds `sign product` at the end.
#[inline(never)]
pub fn add_term(all: &mut List<Term>, sign: Sign, product: Boxed<Product>) -> Result<(), NoMemory>
    ensures { OnOk result (all.new ≡ all.old ++ roll-Term (record { sign = sign; product = product }) ∷ []) }
{
    let product = product.into_inner();
    all.push(Term { sign, product })?;
    Ok(())
}

/// `factor { scale factor }`
#[inline(never)]
pub fn product_of(
    alloc: Global,
    first: Boxed<Factor>,
    more: List<NextFactor>,
) -> Result<Boxed<Product>, NoMemory>
    ensures { IfOk result (λ p. seen_product p ≡ g.product (seen_factor first) (seen_factors more)) }
{
    let first = first.into_inner();
    let product = Boxed::new(alloc, Product { first, more })?;
    Ok(product)
}

/// Adds `scale factor` at the end.
#[inline(never)]
pub fn add_factor(
    all: &mut List<NextFactor>,
    scale: Scale,
    factor: Boxed<Factor>,
) -> Result<(), NoMemory>
    ensures { OnOk result (all.new ≡ all.old ++ record { scale = scale; factor = factor } ∷ []) }
{
    let factor = factor.into_inner();
    all.push(NextFactor { scale, factor })?;
    Ok(())
}

/// `"-" factor`
#[inline(never)]
pub fn minus_of(alloc: Global, at: At, inner: Boxed<Factor>) -> Result<Boxed<Factor>, NoMemory>
    ensures { IfOk result (λ f. seen_factor f ≡ g.minus at (seen_factor inner)) }
{
    let factor = Boxed::new(alloc, Factor::Minus(at, inner))?;
    Ok(factor)
}

/// A number.
#[inline(never)]
pub fn number_factor(alloc: Global, at: At, value: i16) -> Result<Boxed<Factor>, NoMemory>
    ensures { IfOk result (λ f. seen_factor f ≡ g.number at value) }
{
    let factor = Boxed::new(alloc, Factor::Number(at, value))?;
    Ok(factor)
}

/// What is read.
#[inline(never)]
pub fn read_of(alloc: Global, spot: Boxed<Spot>) -> Result<Boxed<Factor>, NoMemory>
    ensures { IfOk result (λ f. seen_factor f ≡ g.read (seen_spot spot)) }
{
    let spot = spot.into_inner();
    let factor = Boxed::new(alloc, Factor::Spot(spot))?;
    Ok(factor)
}

/// `"(" expr ")"`
#[inline(never)]
pub fn parens_of(
    alloc: Global,
    start: At,
    inner: Boxed<Expr>,
    close: At,
) -> Result<Boxed<Factor>, NoMemory>
    ensures { IfOk result (λ f. seen_factor f ≡ g.parens start (seen_expr inner) close) }
{
    let factor = Boxed::new(alloc, Factor::Parens(start, inner, close))?;
    Ok(factor)
}

/// `name index`
#[inline(never)]
pub fn spot_of(alloc: Global, at: At, name: Ident, index: Index) -> Result<Boxed<Spot>, NoMemory>
    ensures { IfOk result (λ s. seen_spot s ≡ g.spot at name (seen_index index)) }
{
    let spot = Boxed::new(alloc, Spot { at, name, index })?;
    Ok(spot)
}
