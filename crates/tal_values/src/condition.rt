ghost use Rattle.std.specs.Prelude.{◌≡◌, pos, Bool, Option, Some, not, IfOk, option_map, if◌then◌else◌};
ghost use Rattle.std.specs.Ordering.{int_eq};
ghost use Rattle.tal_values.specs.Chain.{cond_of, joined_truth};
ghost use Rattle.tal_values.specs.Seen.{memory_now};
ghost use Rattle.tal_values.specs.Value.{both, holds, truth_of};

use crate::chain::{Junction, Link, Test, cond_chain};
use crate::expression::value;
use crate::memory::Memory;
use crate::operators::holds;
use std::alloc::Global;
use tal_tree::{Cond, NoMemory, Rel};

/// The truth of a condition. None is a trap of a value that is looked at.
#[cycle(truth)]
pub fn truth(alloc: Global, memory: Memory<'_>, cond: &Cond) -> Result<Option<bool>, NoMemory>
    ensures { IfOk result (λ truth. truth ≡ truth_of (memory_now memory.entry) cond.now) }
{
    let chain = cond_chain(alloc, cond)?;
    let mut links = chain.links;
    let mut left = tested(alloc, memory, chain.first)?;
    while let Some(link) = links.pop() {
        left = joined(alloc, memory, left, link)?;
    }
    Ok(left)
}

#[cycle(truth)]
fn joined(
    alloc: Global,
    memory: Memory<'_>,
    left: Option<bool>,
    link: Link<'_>,
) -> Result<Option<bool>, NoMemory>
    ensures { IfOk result (λ truth. truth ≡ joined_truth link.entry.junction left
        (truth_of (memory_now memory.entry) link.entry.right.now)) }
{
    if is_decided(link.junction, left) {
        return Ok(left);
    }
    let right = truth(alloc, memory, link.right)?;
    Ok(right)
}

#[cycle(truth)]
fn tested(alloc: Global, memory: Memory<'_>, first: Test<'_>) -> Result<Option<bool>, NoMemory>
    ensures { IfOk result (λ truth. truth ≡ truth_of (memory_now memory.entry) (cond_of first.entry)) }
{
    match first {
        Test::Truth(expr) => {
            let word = value(alloc, memory, expr)?;
            Ok(not_zero(word))
        }
        Test::Compare { rel, left, right } => {
            let left = value(alloc, memory, left)?;
            let right = value(alloc, memory, right)?;
            Ok(compared(rel, left, right))
        }
        Test::Not(inner) => {
            let inner = truth(alloc, memory, inner)?;
            Ok(opposite(inner))
        }
    }
}

fn is_decided(junction: Junction, left: Option<bool>) -> bool
    ensures { (right : Option Bool) → joined_truth junction left right ≡ (if result then left else right) }
{
    match (junction, left) {
        (Junction::And, Some(true)) => false,
        (Junction::Or, Some(false)) => false,
        _ => true,
    }
}

fn not_zero(word: Option<i16>) -> Option<bool>
    ensures { result ≡ option_map (λ x. not (int_eq x (pos 0))) word }
{
    Some(word? != 0)
}

fn opposite(truth: Option<bool>) -> Option<bool>
    ensures { result ≡ option_map not truth }
{
    Some(!truth?)
}

fn compared(rel: Rel, left: Option<i16>, right: Option<i16>) -> Option<bool>
    ensures { result ≡ both (λ x y. Some (holds rel x y)) left right }
{
    let left = left?;
    let right = right?;
    Some(holds(rel, left, right))
}
