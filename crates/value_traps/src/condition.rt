ghost use Rattle.std.specs.Prelude.{◌≡◌, pos, not, Bool, Ok, IfOk, if◌then◌else◌};
ghost use Rattle.std.specs.Ordering.{int_eq};
ghost use Rattle.tal_values.specs.Chain.{cond_of};
ghost use Rattle.tal_values.specs.Seen.{memory_now};
ghost use Rattle.tal_values.specs.Value.{holds};
ghost use Rattle.value_traps.specs.Joined.{joined_worked};
ghost use Rattle.value_traps.specs.Traps.{Worked, made, of_both, truth_or_trap};

use crate::expression::value_or_trap;
use crate::trap::ValueTrap;
use std::alloc::Global;
use tal_tree::{Cond, NoMemory, Rel};
use tal_values::Memory;
use tal_values::chain::{Junction, Link, Test, cond_chain};
use tal_values::operators::holds;

/// The truth of a condition, or the trap that is met first on the way to it.
#[cycle(truth)]
pub fn truth_or_trap(
    alloc: Global,
    memory: Memory<'_>,
    cond: &Cond,
) -> Result<Result<bool, ValueTrap>, NoMemory>
    ensures { IfOk result (λ truth. truth ≡ truth_or_trap (memory_now memory.entry) cond.now) }
{
    let chain = cond_chain(alloc, cond)?;
    let mut links = chain.links;
    let mut left = tested(alloc, memory, chain.first)?;
    while let Some(link) = links.pop() {
        left = joined(alloc, memory, left, link)?;
    }
    Ok(left)
}

#[cycle(truth)]
fn joined(
    alloc: Global,
    memory: Memory<'_>,
    left: Result<bool, ValueTrap>,
    link: Link<'_>,
) -> Result<Result<bool, ValueTrap>, NoMemory>
    ensures { IfOk result (λ truth. truth ≡ joined_worked link.entry.junction left
        (truth_or_trap (memory_now memory.entry) link.entry.right.now)) }
{
    if is_decided(link.junction, left) {
        return Ok(left);
    }
    let right = truth_or_trap(alloc, memory, link.right)?;
    Ok(right)
}

#[cycle(truth)]
fn tested(
    alloc: Global,
    memory: Memory<'_>,
    first: Test<'_>,
) -> Result<Result<bool, ValueTrap>, NoMemory>
    ensures { IfOk result (λ truth. truth ≡ truth_or_trap (memory_now memory.entry) (cond_of first.entry)) }
{
    match first {
        Test::Truth(expr) => {
            let word = value_or_trap(alloc, memory, expr)?;
            Ok(not_zero(word))
        }
        Test::Compare { rel, left, right } => {
            let left = value_or_trap(alloc, memory, left)?;
            let right = value_or_trap(alloc, memory, right)?;
            Ok(compared(rel, left, right))
        }
        Test::Not(inner) => {
            let inner = truth_or_trap(alloc, memory, inner)?;
            Ok(opposite(inner))
        }
    }
}

fn is_decided(junction: Junction, left: Result<bool, ValueTrap>) -> bool
    ensures { (right : Worked Bool) → joined_worked junction left right ≡ (if result then left else right) }
{
    match (junction, left) {
        (Junction::And, Ok(true)) => false,
        (Junction::Or, Ok(false)) => false,
        (Junction::And, Ok(false)) => true,
        (Junction::Or, Ok(true)) => true,
        (Junction::And, Err(_)) => true,
        (Junction::Or, Err(_)) => true,
    }
}

fn not_zero(word: Result<i16, ValueTrap>) -> Result<bool, ValueTrap>
    ensures { result ≡ made (λ x. not (int_eq x (pos 0))) word }
{
    match word {
        Err(trap) => Err(trap),
        Ok(word) => Ok(word != 0),
    }
}

fn opposite(truth: Result<bool, ValueTrap>) -> Result<bool, ValueTrap>
    ensures { result ≡ made not truth }
{
    match truth {
        Err(trap) => Err(trap),
        Ok(truth) => Ok(!truth),
    }
}

/// Whether two values stand in a relation.
pub fn compared(
    rel: Rel,
    left: Result<i16, ValueTrap>,
    right: Result<i16, ValueTrap>,
) -> Result<bool, ValueTrap>
    ensures { result ≡ of_both (λ x y. Ok (holds rel x y)) left right }
{
    match (left, right) {
        (Err(trap), _) => Err(trap),
        (Ok(_), Err(trap)) => Err(trap),
        (Ok(left), Ok(right)) => Ok(holds(rel, left, right)),
    }
}
