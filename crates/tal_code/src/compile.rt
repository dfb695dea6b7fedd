ghost use Rattle.std.specs.Prelude.{◌≡◌, ◌+◌, ◌<◌, ◌≤◌, length, IfOk, OnOk, IfSome, IfNone};
ghost use Rattle.tal_tree.specs.declared.expression.Expr.TheVariants as expr;
ghost use Rattle.tal_tree.specs.declared.expression.Cond.TheVariants as cond;
ghost use Rattle.tal_values.specs.Chain.{expr_of, cond_of};
ghost use Rattle.tal_values.specs.Spots.{spot_of};
ghost use Rattle.tal_code.specs.Waiting.{waiting_of, waiting_of_spot, waiting_for, waiting_of_test};
ghost use Rattle.tal_code.specs.Words.{operand_expr};
ghost use Rattle.tal_code.specs.Parts.{Valued, Tested, with_part, two_part, compared_part, joined_part};

use crate::code::{Code, Draft, TestCode};
use crate::spot::{Aim, SpotCode};
use crate::step::{Instruction, Operand};
use gd_words::NoMemory;
use std::alloc::Global;
use tal_tree::{Cond, Expr, Op, Rel, Spot, Variable};
use tal_values::chain::{Junction, Link, Operand as First, Tail, Test, cond_chain, expr_chain};

/// The code of an expression. This call and those below require that fewer than 80 left sides wait at one time for
/// right sides that are no numbers and no simple variables: a stack has room for 80 words below the top, of which one
/// stands there from the beginning. So it counts how deep right sides stand in one another, those of AND and OR among
/// them, and neither how long a chain is nor how deep its left sides stand.
pub fn code_of(alloc: Global, expr: &Expr) -> Result<Code, NoMemory>
    requires { waiting_of expr.now < 80 }
    ensures { IfOk result (λ code. code ≡ expr.now) }
{
    let mut draft = Draft::new(alloc);
    put_expr(alloc, &mut draft, expr)?;
    Ok(draft.finish())
}

/// The code of a condition.
pub fn test_code_of(alloc: Global, cond: &Cond) -> Result<TestCode, NoMemory>
    requires { waiting_of_test cond.now < 80 }
    ensures { IfOk result (λ code. code ≡ cond.now) }
{
    let mut draft = Draft::new(alloc);
    put_cond(alloc, &mut draft, cond)?;
    Ok(draft.finish_test())
}

/// The code of a spot.
pub fn spot_code_of(alloc: Global, spot: &Spot) -> Result<SpotCode, NoMemory>
    requires { waiting_of_spot spot.now < 80 }
    ensures { IfOk result (λ code. code ≡ spot.now) }
{
    match spot {
        Spot::Local(place) => Ok(SpotCode::new(Aim::Local(*place))),
        Spot::Simple(item) => Ok(SpotCode::new(Aim::Simple(*item))),
        Spot::Element { item, index } => {
            let item = *item;
            let index = code_of(alloc, index)?;
            Ok(SpotCode::new(Aim::Element { item, index }))
        }
    }
}

/// The code of the test of a FOR: how its variable stands to the limit.
pub fn limit_code_of(
    alloc: Global,
    variable: Variable,
    rel: Rel,
    to: &Expr,
) -> Result<TestCode, NoMemory>
    requires { waiting_for to.now < 80 }
    ensures { IfOk result (λ code. code ≡ cond.Compare rel (expr.Read (spot_of variable)) to.now) }
{
    let mut draft = Draft::new(alloc);
    draft.push(Instruction::Load(simple_variable(variable)))?;
    put_compared(alloc, &mut draft, rel, to)?;
    Ok(draft.finish_test())
}

/// The code of what the variable of a FOR becomes after each turn.
pub fn next_code_of(alloc: Global, variable: Variable, op: Op, step: i16) -> Result<Code, NoMemory>
    ensures { IfOk result (λ code. code ≡ expr.Two op (expr.Read (spot_of variable)) (expr.Number step)) }
{
    let mut draft = Draft::new(alloc);
    draft.push(Instruction::Load(simple_variable(variable)))?;
    draft.push(Instruction::With(op, Operand::Number(step)))?;
    Ok(draft.finish())
}

#[cycle(put)]
fn put_expr(alloc: Global, draft: &mut Draft, expr: &Expr) -> Result<(), NoMemory>
    requires { length draft.old.below + waiting_of expr.now < 80 }
    ensures { OnOk result (draft.new ≡ with_part (Valued expr.now) draft.old) }
{
    let chain = expr_chain(alloc, expr)?;
    let mut tails = chain.tails;
    put_first(alloc, draft, chain.first)?;
    while let Some(tail) = tails.pop() {
        put_tail(alloc, draft, tail)?;
    }
    Ok(())
}

#[cycle(put)]
fn put_first(alloc: Global, draft: &mut Draft, first: First<'_>) -> Result<(), NoMemory>
    requires { length draft.old.below + waiting_of (expr_of first) < 80 }
    ensures { OnOk result (draft.new ≡ with_part (Valued (expr_of first.entry)) draft.old) }
{
    match first {
        First::Number(word) => draft.push(Instruction::Load(Operand::Number(word)))?,
        First::Read(spot) => put_spot(alloc, draft, spot)?,
        First::Minus(inner) => {
            put_expr(alloc, draft, inner)?;
            draft.push(Instruction::Minus)?;
        }
    }
    Ok(())
}

#[cycle(put)]
fn put_spot(alloc: Global, draft: &mut Draft, spot: &Spot) -> Result<(), NoMemory>
    requires { length draft.old.below + waiting_of_spot spot.now < 80 }
    ensures { OnOk result (draft.new ≡ with_part (Valued (expr.Read spot.now)) draft.old) }
{
    match spot {
        Spot::Local(place) => draft.push(Instruction::Load(Operand::Local(*place)))?,
        Spot::Simple(item) => draft.push(Instruction::Load(Operand::Simple(*item)))?,
        Spot::Element { item, index } => {
            put_expr(alloc, draft, index)?;
            draft.push(Instruction::Element(*item))?;
        }
    }
    Ok(())
}

#[cycle(put)]
fn put_tail(alloc: Global, draft: &mut Draft, tail: Tail<'_>) -> Result<(), NoMemory>
    requires { length draft.old.below + waiting_for tail.right.now ≤ 80 }
    ensures { OnOk result (draft.new ≡ record draft.old
        { top = two_part tail.entry.op draft.old.top (Valued tail.entry.right.now) }) }
{
    match simple(tail.right) {
        Some(operand) => draft.push(Instruction::With(tail.op, operand))?,
        None => {
            put_expr(alloc, draft, tail.right)?;
            draft.push(Instruction::Two(tail.op))?;
        }
    }
    Ok(())
}

/// The operand that an expression is, where it is as simple as that.
fn simple(expr: &Expr) -> Option<Operand>
    ensures some { IfSome result (λ operand. operand_expr operand ≡ expr.now) }
    ensures none { IfNone result (waiting_for expr.now ≡ waiting_of expr.now + 1) }
{
    match expr {
        Expr::Number(word) => Some(Operand::Number(*word)),
        Expr::Read(spot) => simple_spot(spot.get()),
        _ => None,
    }
}

fn simple_spot(spot: &Spot) -> Option<Operand>
    ensures some { IfSome result (λ operand. operand_expr operand ≡ expr.Read spot.now) }
    ensures none { IfNone result (waiting_for (expr.Read spot.now) ≡ waiting_of (expr.Read spot.now) + 1) }
{
    match spot {
        Spot::Local(place) => Some(Operand::Local(*place)),
        Spot::Simple(item) => Some(Operand::Simple(*item)),
        Spot::Element { item: _, index: _ } => None,
    }
}

fn simple_variable(variable: Variable) -> Operand
    ensures { operand_expr result ≡ expr.Read (spot_of variable) }
{
    match variable {
        Variable::Local(place) => Operand::Local(place),
        Variable::Simple(item) => Operand::Simple(item),
    }
}

#[cycle(put_cond)]
fn put_cond(alloc: Global, draft: &mut Draft, cond: &Cond) -> Result<(), NoMemory>
    requires { length draft.old.below + waiting_of_test cond.now < 80 }
    ensures { OnOk result (draft.new ≡ with_part (Tested cond.now) draft.old) }
{
    let chain = cond_chain(alloc, cond)?;
    let mut links = chain.links;
    put_test(alloc, draft, chain.first)?;
    while let Some(link) = links.pop() {
        put_link(alloc, draft, link)?;
    }
    Ok(())
}

#[cycle(put_cond)]
fn put_test(alloc: Global, draft: &mut Draft, first: Test<'_>) -> Result<(), NoMemory>
    requires { length draft.old.below + waiting_of_test (cond_of first) < 80 }
    ensures { OnOk result (draft.new ≡ with_part (Tested (cond_of first.entry)) draft.old) }
{
    match first {
        Test::Truth(expr) => {
            put_expr(alloc, draft, expr)?;
            draft.push(Instruction::Truth)?;
        }
        Test::Compare { rel, left, right } => {
            put_expr(alloc, draft, left)?;
            put_compared(alloc, draft, rel, right)?;
        }
        Test::Not(inner) => {
            put_cond(alloc, draft, inner)?;
            draft.push(Instruction::Not)?;
        }
    }
    Ok(())
}

fn put_compared(alloc: Global, draft: &mut Draft, rel: Rel, right: &Expr) -> Result<(), NoMemory>
    requires { length draft.old.below + waiting_for right.now ≤ 80 }
    ensures { OnOk result (draft.new ≡ record draft.old { top = compared_part rel draft.old.top (Valued right.now) }) }
{
    match simple(right) {
        Some(operand) => draft.push(Instruction::CompareWith(rel, operand))?,
        None => {
            put_expr(alloc, draft, right)?;
            draft.push(Instruction::Compare(rel))?;
        }
    }
    Ok(())
}

// Both sides are evaluated, and a trap of the right one is lost where the left one decides: so code needs no jumps.
#[cycle(put_cond)]
fn put_link(alloc: Global, draft: &mut Draft, link: Link<'_>) -> Result<(), NoMemory>
    requires { length draft.old.below + (waiting_of_test link.right.now + 1) ≤ 80 }
    ensures { OnOk result (draft.new ≡ record draft.old
        { top = joined_part link.entry.junction draft.old.top (Tested link.entry.right.now) }) }
{
    put_cond(alloc, draft, link.right)?;
    match link.junction {
        Junction::And => draft.push(Instruction::And)?,
        Junction::Or => draft.push(Instruction::Or)?,
    }
    Ok(())
}
