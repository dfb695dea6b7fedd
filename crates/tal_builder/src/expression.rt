ghost use Rattle.std.specs.Prelude.{◌≡◌};
ghost use Rattle.tal_builder.specs.Outcome.{Tells};
ghost use Rattle.tal_builder.specs.Parse.{ors_by, ands_by, compared_to, relation_by, terms_by, factors_by, index_by};
ghost use Rattle.tal_builder.specs.Parse.{parens_by, minus_by, negated_by, expr_at, both_at, neg_at, sum_at};
ghost use Rattle.tal_builder.specs.Parse.{product_at, factor_at, spot_at, expr_in, neg_in, factor_in};
ghost use Rattle.tal_syntax.specs.Seen.{seen_expr, seen_ors, seen_both, seen_ands, seen_neg, seen_sum, seen_terms};
ghost use Rattle.tal_syntax.specs.Seen.{seen_product, seen_factors, seen_factor, seen_spot, seen_index};

use crate::expression_parts::{
    add_both, add_factor, add_neg, add_term, alone_of, both_of, compared_of, expr_of, minus_of,
    negated_of, number_factor, parens_of, product_of, read_of, spot_of, sum_of,
};
use crate::first::{name_first, rel_first, scale_first, sign_first};
use crate::plain_token::{PlainToken, expect, optional};
use crate::stop::BuildFault;
use gd_words::{Boxed, List};
use std::alloc::Global;
use tal_syntax::{
    Both, Expr, Factor, Index, Neg, NextBoth, NextFactor, NextNeg, Product, Spot, Sum, Term,
};
use tal_tokens::{At, Token};

/// `both { OR both }`, in which so many levels may be opened.
#[cycle(expression)]
pub fn expr(
    alloc: Global,
    room: u8,
    tokens: &[Token],
) -> Result<(Boxed<Expr>, &[Token]), BuildFault>
    ensures { Tells (λ r. (seen_expr r.0, r.1.now)) result (expr_at room tokens.now) }
{
    let (first, after) = both(alloc, room, tokens)?;
    let (more, rest) = more_boths(alloc, room, after)?;
    let expr = expr_of(alloc, first, more)?;
    Ok((expr, rest))
}

/// `{ OR both }`
#[cycle(expression)]
fn more_boths(
    alloc: Global,
    room: u8,
    tokens: &[Token],
) -> Result<(List<NextBoth>, &[Token]), BuildFault>
    ensures { Tells (λ r. (seen_ors r.0, r.1.now)) result (ors_by (both_at room) tokens.now) }
{
    let mut all = List::new(alloc);
    let mut rest = tokens;
    for _turn in 0..tokens.len() {
        let Some((or, after)) = optional(PlainToken::Or, rest) else {
            return Ok((all, rest));
        };
        let (both, after) = both(alloc, room, after)?;
        add_both(&mut all, or, both)?;
        rest = after;
    }
    Ok((all, rest))
}

/// `neg { AND neg }`
#[cycle(expression)]
fn both(alloc: Global, room: u8, tokens: &[Token]) -> Result<(Boxed<Both>, &[Token]), BuildFault>
    ensures { Tells (λ r. (seen_both r.0, r.1.now)) result (both_at room tokens.now) }
{
    let (first, after) = neg(alloc, room, tokens)?;
    let (more, rest) = more_negs(alloc, room, after)?;
    let both = both_of(alloc, first, more)?;
    Ok((both, rest))
}

/// `{ AND neg }`
#[cycle(expression)]
fn more_negs(
    alloc: Global,
    room: u8,
    tokens: &[Token],
) -> Result<(List<NextNeg>, &[Token]), BuildFault>
    ensures { Tells (λ r. (seen_ands r.0, r.1.now)) result (ands_by (neg_at room) tokens.now) }
{
    let mut all = List::new(alloc);
    let mut rest = tokens;
    for _turn in 0..tokens.len() {
        let Some((and, after)) = optional(PlainToken::And, rest) else {
            return Ok((all, rest));
        };
        let (neg, after) = neg(alloc, room, after)?;
        add_neg(&mut all, and, neg)?;
        rest = after;
    }
    Ok((all, rest))
}

/// `NOT neg | sum compared`
#[cycle(expression)]
fn neg(alloc: Global, room: u8, tokens: &[Token]) -> Result<(Boxed<Neg>, &[Token]), BuildFault>
    ensures { Tells (λ r. (seen_neg r.0, r.1.now)) result (neg_at room tokens.now) }
{
    match tokens {
        [Token::Not(at), rest @ ..] => negation(alloc, room, *at, rest),
        _ => relation(alloc, room, tokens),
    }
}

/// `neg`, after NOT
#[cycle(expression)]
fn negation(
    alloc: Global,
    room: u8,
    at: At,
    tokens: &[Token],
) -> Result<(Boxed<Neg>, &[Token]), BuildFault>
    ensures { Tells (λ r. (seen_neg r.0, r.1.now)) result (negated_by (neg_in room) at tokens.now) }
{
    let (inner, rest) = neg_within(alloc, room, tokens)?;
    let neg = negated_of(alloc, at, inner)?;
    Ok((neg, rest))
}

/// `sum compared`
#[cycle(expression)]
fn relation(alloc: Global, room: u8, tokens: &[Token]) -> Result<(Boxed<Neg>, &[Token]), BuildFault>
    ensures { Tells (λ r. (seen_neg r.0, r.1.now)) result (relation_by (sum_at room) tokens.now) }
{
    let (left, after) = sum(alloc, room, tokens)?;
    compared(alloc, room, left, after)
}

/// `[ rel sum ]`, after its left sum
#[cycle(expression)]
fn compared(
    alloc: Global,
    room: u8,
    left: Boxed<Sum>,
    tokens: &[Token],
) -> Result<(Boxed<Neg>, &[Token]), BuildFault>
    ensures { Tells (λ r. (seen_neg r.0, r.1.now)) result (compared_to (sum_at room) (seen_sum left) tokens.now) }
{
    let Some((rel, after)) = rel_first(tokens) else {
        let neg = alone_of(alloc, left)?;
        return Ok((neg, tokens));
    };
    let (right, rest) = sum(alloc, room, after)?;
    let neg = compared_of(alloc, left, rel, right)?;
    Ok((neg, rest))
}

/// `product { sign product }`
#[cycle(expression)]
fn sum(alloc: Global, room: u8, tokens: &[Token]) -> Result<(Boxed<Sum>, &[Token]), BuildFault>
    ensures { Tells (λ r. (seen_sum r.0, r.1.now)) result (sum_at room tokens.now) }
{
    let (first, after) = product(alloc, room, tokens)?;
    let (more, rest) = more_terms(alloc, room, after)?;
    let sum = sum_of(alloc, first, more)?;
    Ok((sum, rest))
}

/// `{ sign product }`
#[cycle(expression)]
fn more_terms(
    alloc: Global,
    room: u8,
    tokens: &[Token],
) -> Result<(List<Term>, &[Token]), BuildFault>
    ensures { Tells (λ r. (seen_terms r.0, r.1.now)) result (terms_by (product_at room) tokens.now) }
{
    let mut all = List::new(alloc);
    let mut rest = tokens;
    for _turn in 0..tokens.len() {
        let Some((sign, after)) = sign_first(rest) else {
            return Ok((all, rest));
        };
        let (product, after) = product(alloc, room, after)?;
        add_term(&mut all, sign, product)?;
        rest = after;
    }
    Ok((all, rest))
}

/// `factor { scale factor }`
#[cycle(expression)]
fn product(
    alloc: Global,
    room: u8,
    tokens: &[Token],
) -> Result<(Boxed<Product>, &[Token]), BuildFault>
    ensures { Tells (λ r. (seen_product r.0, r.1.now)) result (product_at room tokens.now) }
{
    let (first, after) = factor(alloc, room, tokens)?;
    let (more, rest) = more_factors(alloc, room, after)?;
    let product = product_of(alloc, first, more)?;
    Ok((product, rest))
}

/// `{ scale factor }`
#[cycle(expression)]
fn more_factors(
    alloc: Global,
    room: u8,
    tokens: &[Token],
) -> Result<(List<NextFactor>, &[Token]), BuildFault>
    ensures { Tells (λ r. (seen_factors r.0, r.1.now)) result (factors_by (factor_at room) tokens.now) }
{
    let mut all = List::new(alloc);
    let mut rest = tokens;
    for _turn in 0..tokens.len() {
        let Some((scale, after)) = scale_first(rest) else {
            return Ok((all, rest));
        };
        let (factor, after) = factor(alloc, room, after)?;
        add_factor(&mut all, scale, factor)?;
        rest = after;
    }
    Ok((all, rest))
}

/// `"-" factor | number | spot | "(" expr ")"`
#[cycle(expression)]
fn factor(
    alloc: Global,
    room: u8,
    tokens: &[Token],
) -> Result<(Boxed<Factor>, &[Token]), BuildFault>
    ensures { Tells (λ r. (seen_factor r.0, r.1.now)) result (factor_at room tokens.now) }
{
    match tokens {
        [Token::Minus(at), rest @ ..] => negative(alloc, room, *at, rest),
        [Token::Number(at, value), rest @ ..] => {
            let factor = number_factor(alloc, *at, *value)?;
            Ok((factor, rest))
        }
        [Token::Open(start), rest @ ..] => parens(alloc, room, *start, rest),
        _ => {
            let (spot, rest) = spot(alloc, room, tokens)?;
            let factor = read_of(alloc, spot)?;
            Ok((factor, rest))
        }
    }
}

/// `factor`, after `-`
#[cycle(expression)]
fn negative(
    alloc: Global,
    room: u8,
    at: At,
    tokens: &[Token],
) -> Result<(Boxed<Factor>, &[Token]), BuildFault>
    ensures { Tells (λ r. (seen_factor r.0, r.1.now)) result (minus_by (factor_in room) at tokens.now) }
{
    let (inner, rest) = factor_within(alloc, room, tokens)?;
    let factor = minus_of(alloc, at, inner)?;
    Ok((factor, rest))
}

/// `expr ")"`, after `(`
#[cycle(expression)]
fn parens(
    alloc: Global,
    room: u8,
    start: At,
    tokens: &[Token],
) -> Result<(Boxed<Factor>, &[Token]), BuildFault>
    ensures { Tells (λ r. (seen_factor r.0, r.1.now)) result (parens_by (expr_in room) start tokens.now) }
{
    let (inner, after) = expr_within(alloc, room, tokens)?;
    let (close, rest) = expect(PlainToken::Close, after)?;
    let factor = parens_of(alloc, start, inner, close)?;
    Ok((factor, rest))
}

/// `name index`
#[cycle(expression)]
pub fn spot(
    alloc: Global,
    room: u8,
    tokens: &[Token],
) -> Result<(Boxed<Spot>, &[Token]), BuildFault>
    ensures { Tells (λ r. (seen_spot r.0, r.1.now)) result (spot_at room tokens.now) }
{
    let Some((named, after)) = name_first(tokens) else {
        return Err(BuildFault::NoSyntax);
    };
    let (index, rest) = index(alloc, room, after)?;
    let spot = spot_of(alloc, named.at, named.name, index)?;
    Ok((spot, rest))
}

/// `[ "[" expr "]" ]`
#[cycle(expression)]
fn index(alloc: Global, room: u8, tokens: &[Token]) -> Result<(Index, &[Token]), BuildFault>
    ensures { Tells (λ r. (seen_index r.0, r.1.now)) result (index_by (expr_in room) tokens.now) }
{
    let Some((start, after)) = optional(PlainToken::OpenIndex, tokens) else {
        return Ok((Index::Simple, tokens));
    };
    let (inner, after) = expr_within(alloc, room, after)?;
    let (close, rest) = expect(PlainToken::CloseIndex, after)?;
    Ok((Index::Element(start, inner, close), rest))
}

/// An expression that opens the first of so many levels.
#[cycle(expression)]
fn expr_within(
    alloc: Global,
    room: u8,
    tokens: &[Token],
) -> Result<(Boxed<Expr>, &[Token]), BuildFault>
    ensures { Tells (λ r. (seen_expr r.0, r.1.now)) result (expr_in room tokens.now) }
{
    if room == 0 {
        return Err(BuildFault::NoSyntax);
    }
    expr(alloc, room - 1, tokens)
}

/// The operand of a NOT that opens the first of so many levels.
#[cycle(expression)]
fn neg_within(
    alloc: Global,
    room: u8,
    tokens: &[Token],
) -> Result<(Boxed<Neg>, &[Token]), BuildFault>
    ensures { Tells (λ r. (seen_neg r.0, r.1.now)) result (neg_in room tokens.now) }
{
    if room == 0 {
        return Err(BuildFault::NoSyntax);
    }
    neg(alloc, room - 1, tokens)
}

/// The operand of a minus that opens the first of so many levels.
#[cycle(expression)]
fn factor_within(
    alloc: Global,
    room: u8,
    tokens: &[Token],
) -> Result<(Boxed<Factor>, &[Token]), BuildFault>
    ensures { Tells (λ r. (seen_factor r.0, r.1.now)) result (factor_in room tokens.now) }
{
    if room == 0 {
        return Err(BuildFault::NoSyntax);
    }
    factor(alloc, room - 1, tokens)
}
