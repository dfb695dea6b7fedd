ghost use Rattle.std.specs.Prelude.{◌≡◌, IfOk};
ghost use Rattle.tal_meaning.specs.Expressions.{op_of_sign, op_of_scale, rel_of, read_by, target_by, value_of_expr};
ghost use Rattle.tal_meaning.specs.Expressions.{value_of_both, value_of_neg, value_of_sum, value_of_product};
ghost use Rattle.tal_meaning.specs.Expressions.{value_of_factor, value_of_spot, value_of_index, target_of_spot};
ghost use Rattle.tal_meaning.specs.Expressions.{cond_of_expr, cond_of_both, cond_of_neg, cond_of_sum, cond_of_product};
ghost use Rattle.tal_meaning.specs.Expressions.{cond_of_factor};
ghost use Rattle.tal_syntax.specs.Seen.{seen_rel, seen_sign, seen_scale, seen_spot, seen_index, seen_factor};
ghost use Rattle.tal_syntax.specs.Seen.{seen_product, seen_sum, seen_neg, seen_both, seen_expr};
ghost use Rattle.tal_tree.specs.declared.expression.Cond.TheVariants.{And, Or};
ghost use Rattle.tal_tree.specs.declared.expression.Expr.TheVariants.{Read, Two};

use std::alloc::Global;
use tal_names::lookup::meaning_of;
use tal_names::meaning::Meaning;
use tal_names::scope::Scope;
use tal_syntax::{Both, Compared, Expr, Factor, Index, Neg, Product, Rel, Scale, Sign, Spot, Sum};
use tal_tree::{Boxed, Cond, NoMemory, Op};

fn op_of_sign(sign: Sign) -> Op
    ensures { result ≡ op_of_sign (seen_sign sign) }
{
    match sign {
        Sign::Plus(_) => Op::Add,
        Sign::Minus(_) => Op::Sub,
    }
}

fn op_of_scale(scale: Scale) -> Op
    ensures { result ≡ op_of_scale (seen_scale scale) }
{
    match scale {
        Scale::Times(_) => Op::Mul,
        Scale::Over(_) => Op::Div,
    }
}

fn rel_of(rel: Rel) -> tal_tree::Rel
    ensures { result ≡ rel_of (seen_rel rel) }
{
    match rel {
        Rel::Equal(_) => tal_tree::Rel::Equal,
        Rel::Differs(_) => tal_tree::Rel::Differs,
        Rel::Less(_) => tal_tree::Rel::Less,
        Rel::AtMost(_) => tal_tree::Rel::AtMost,
        Rel::Greater(_) => tal_tree::Rel::Greater,
        Rel::AtLeast(_) => tal_tree::Rel::AtLeast,
    }
}

fn two(
    alloc: Global,
    op: Op,
    left: tal_tree::Expr,
    right: tal_tree::Expr,
) -> Result<tal_tree::Expr, NoMemory>
    ensures { IfOk result (λ e. e ≡ Two op left right) }
{
    let left = Boxed::new(alloc, left)?;
    let right = Boxed::new(alloc, right)?;
    Ok(tal_tree::Expr::Two { op, left, right })
}

fn or(alloc: Global, left: Cond, right: Cond) -> Result<Cond, NoMemory>
    ensures { IfOk result (λ c. c ≡ Or left right) }
{
    let left = Boxed::new(alloc, left)?;
    let right = Boxed::new(alloc, right)?;
    Ok(Cond::Or(left, right))
}

fn and(alloc: Global, left: Cond, right: Cond) -> Result<Cond, NoMemory>
    ensures { IfOk result (λ c. c ≡ And left right) }
{
    let left = Boxed::new(alloc, left)?;
    let right = Boxed::new(alloc, right)?;
    Ok(Cond::And(left, right))
}

/// What an assignment to a name sets.
fn target_by(found: Option<Meaning>, index: Option<tal_tree::Expr>) -> tal_tree::Spot
    ensures { result ≡ target_by found index }
{
    match found {
        Some(Meaning::Local(number)) => tal_tree::Spot::Local(number),
        Some(Meaning::Simple(item)) => tal_tree::Spot::Simple(item),
        Some(Meaning::Array(item)) => match index {
            Some(index) => tal_tree::Spot::Element { item, index },
            None => tal_tree::Spot::Simple(0),
        },
        _ => tal_tree::Spot::Simple(0),
    }
}

/// What a name reads with the value of its index, if it has one.
pub fn read_by(
    alloc: Global,
    found: Option<Meaning>,
    index: Option<tal_tree::Expr>,
) -> Result<tal_tree::Expr, NoMemory>
    ensures { IfOk result (λ e. e ≡ read_by found index) }
{
    match found {
        Some(Meaning::Local(number)) => read(alloc, tal_tree::Spot::Local(number)),
        Some(Meaning::Simple(item)) => read(alloc, tal_tree::Spot::Simple(item)),
        Some(Meaning::Literal(value)) => Ok(tal_tree::Expr::Number(value)),
        Some(Meaning::Array(item)) => match index {
            Some(index) => read(alloc, tal_tree::Spot::Element { item, index }),
            None => Ok(tal_tree::Expr::Number(0)),
        },
        _ => Ok(tal_tree::Expr::Number(0)),
    }
}

fn read(alloc: Global, spot: tal_tree::Spot) -> Result<tal_tree::Expr, NoMemory>
    ensures { IfOk result (λ e. e ≡ Read spot) }
{
    let spot = Boxed::new(alloc, spot)?;
    Ok(tal_tree::Expr::Read(spot))
}

/// The value that an expression stands for.
#[cycle(value)]
pub fn value_of_expr(expr: &Expr, alloc: Global, scope: &Scope) -> Result<tal_tree::Expr, NoMemory>
    ensures { IfOk result (λ e. e ≡ value_of_expr scope.now (seen_expr expr.now)) }
{
    value_of_both(&expr.first, alloc, scope)
}

#[cycle(value)]
fn value_of_both(both: &Both, alloc: Global, scope: &Scope) -> Result<tal_tree::Expr, NoMemory>
    ensures { IfOk result (λ e. e ≡ value_of_both scope.now (seen_both both.now)) }
{
    value_of_neg(&both.first, alloc, scope)
}

#[cycle(value)]
fn value_of_neg(neg: &Neg, alloc: Global, scope: &Scope) -> Result<tal_tree::Expr, NoMemory>
    ensures { IfOk result (λ e. e ≡ value_of_neg scope.now (seen_neg neg.now)) }
{
    match neg {
        Neg::Not(_, _) => Ok(tal_tree::Expr::Number(0)),
        Neg::Relation(sum, _) => value_of_sum(sum, alloc, scope),
    }
}

#[cycle(value)]
fn value_of_sum(sum: &Sum, alloc: Global, scope: &Scope) -> Result<tal_tree::Expr, NoMemory>
    ensures { IfOk result (λ e. e ≡ value_of_sum scope.now (seen_sum sum.now)) }
{
    let mut left = value_of_product(&sum.first, alloc, scope)?;
    let more = sum.more.as_slice();
    for term in more {
        let right = value_of_product(&term.product, alloc, scope)?;
        left = two(alloc, op_of_sign(term.sign), left, right)?;
    }
    Ok(left)
}

#[cycle(value)]
fn value_of_product(
    product: &Product,
    alloc: Global,
    scope: &Scope,
) -> Result<tal_tree::Expr, NoMemory>
    ensures { IfOk result (λ e. e ≡ value_of_product scope.now (seen_product product.now)) }
{
    let mut left = value_of_factor(&product.first, alloc, scope)?;
    let more = product.more.as_slice();
    for next in more {
        let right = value_of_factor(&next.factor, alloc, scope)?;
        left = two(alloc, op_of_scale(next.scale), left, right)?;
    }
    Ok(left)
}

#[cycle(value)]
fn value_of_factor(
    factor: &Factor,
    alloc: Global,
    scope: &Scope,
) -> Result<tal_tree::Expr, NoMemory>
    ensures { IfOk result (λ e. e ≡ value_of_factor scope.now (seen_factor factor.now)) }
{
    match factor {
        Factor::Minus(_, inner) => {
            let inner = value_of_factor(inner.get(), alloc, scope)?;
            let inner = Boxed::new(alloc, inner)?;
            Ok(tal_tree::Expr::Minus(inner))
        }
        Factor::Number(_, value) => Ok(tal_tree::Expr::Number(*value)),
        Factor::Spot(spot) => value_of_spot(spot, alloc, scope),
        Factor::Parens(_, inner, _) => value_of_expr(inner.get(), alloc, scope),
    }
}

#[cycle(value)]
fn value_of_spot(spot: &Spot, alloc: Global, scope: &Scope) -> Result<tal_tree::Expr, NoMemory>
    ensures { IfOk result (λ e. e ≡ value_of_spot scope.now (seen_spot spot.now)) }
{
    let index = value_of_index(&spot.index, alloc, scope)?;
    read_by(alloc, meaning_of(scope, spot.name), index)
}

#[cycle(value)]
fn value_of_index(
    index: &Index,
    alloc: Global,
    scope: &Scope,
) -> Result<Option<tal_tree::Expr>, NoMemory>
    ensures { IfOk result (λ i. i ≡ value_of_index scope.now (seen_index index.now)) }
{
    match index {
        Index::Simple => Ok(None),
        Index::Element(_, inner, _) => {
            let inner = value_of_expr(inner.get(), alloc, scope)?;
            Ok(Some(inner))
        }
    }
}

/// What an assignment sets.
pub fn target_of_spot(spot: &Spot, alloc: Global, scope: &Scope) -> Result<tal_tree::Spot, NoMemory>
    ensures { IfOk result (λ t. t ≡ target_of_spot scope.now (seen_spot spot.now)) }
{
    let index = value_of_index(&spot.index, alloc, scope)?;
    Ok(target_by(meaning_of(scope, spot.name), index))
}

/// The condition that an expression stands for.
#[cycle(cond)]
pub fn cond_of_expr(expr: &Expr, alloc: Global, scope: &Scope) -> Result<Cond, NoMemory>
    ensures { IfOk result (λ c. c ≡ cond_of_expr scope.now (seen_expr expr.now)) }
{
    let mut left = cond_of_both(&expr.first, alloc, scope)?;
    let more = expr.more.as_slice();
    for next in more {
        let right = cond_of_both(&next.both, alloc, scope)?;
        left = or(alloc, left, right)?;
    }
    Ok(left)
}

#[cycle(cond)]
fn cond_of_both(both: &Both, alloc: Global, scope: &Scope) -> Result<Cond, NoMemory>
    ensures { IfOk result (λ c. c ≡ cond_of_both scope.now (seen_both both.now)) }
{
    let mut left = cond_of_neg(&both.first, alloc, scope)?;
    let more = both.more.as_slice();
    for next in more {
        let right = cond_of_neg(&next.neg, alloc, scope)?;
        left = and(alloc, left, right)?;
    }
    Ok(left)
}

#[cycle(cond)]
fn cond_of_neg(neg: &Neg, alloc: Global, scope: &Scope) -> Result<Cond, NoMemory>
    ensures { IfOk result (λ c. c ≡ cond_of_neg scope.now (seen_neg neg.now)) }
{
    match neg {
        Neg::Not(_, inner) => {
            let inner = cond_of_neg(inner.get(), alloc, scope)?;
            let inner = Boxed::new(alloc, inner)?;
            Ok(Cond::Not(inner))
        }
        Neg::Relation(sum, compared) => match compared {
            Compared::Alone => cond_of_sum(sum, alloc, scope),
            Compared::With(rel, other) => {
                let left = value_of_sum(sum, alloc, scope)?;
                let right = value_of_sum(other, alloc, scope)?;
                Ok(Cond::Compare {
                    rel: rel_of(*rel),
                    left,
                    right,
                })
            }
        },
    }
}

#[cycle(cond)]
fn cond_of_sum(sum: &Sum, alloc: Global, scope: &Scope) -> Result<Cond, NoMemory>
    ensures { IfOk result (λ c. c ≡ cond_of_sum scope.now (seen_sum sum.now)) }
{
    match sum.more.as_slice().split_first() {
        None => cond_of_product(&sum.first, alloc, scope),
        Some(_) => {
            let value = value_of_sum(sum, alloc, scope)?;
            Ok(Cond::Truth(value))
        }
    }
}

#[cycle(cond)]
fn cond_of_product(product: &Product, alloc: Global, scope: &Scope) -> Result<Cond, NoMemory>
    ensures { IfOk result (λ c. c ≡ cond_of_product scope.now (seen_product product.now)) }
{
    match product.more.as_slice().split_first() {
        None => cond_of_factor(&product.first, alloc, scope),
        Some(_) => {
            let value = value_of_product(product, alloc, scope)?;
            Ok(Cond::Truth(value))
        }
    }
}

#[cycle(cond)]
fn cond_of_factor(factor: &Factor, alloc: Global, scope: &Scope) -> Result<Cond, NoMemory>
    ensures { IfOk result (λ c. c ≡ cond_of_factor scope.now (seen_factor factor.now)) }
{
    match factor {
        Factor::Parens(_, inner, _) => cond_of_expr(inner.get(), alloc, scope),
        _ => {
            let value = value_of_factor(factor, alloc, scope)?;
            Ok(Cond::Truth(value))
        }
    }
}
