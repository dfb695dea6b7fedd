ghost use Rattle.std.specs.Prelude.{◌≡◌, IfOk};
ghost use Rattle.tal_values.specs.Chain.{expr_of};
ghost use Rattle.tal_values.specs.Seen.{memory_now};
ghost use Rattle.value_traps.specs.Traps.{cell_or_trap, value_or_trap};

use crate::operators::{applied, element, negated, read};
use crate::trap::ValueTrap;
use std::alloc::Global;
use tal_tree::{Expr, NoMemory, Spot};
use tal_values::chain::{Operand, expr_chain};
use tal_values::{Cell, Memory};

/// The value of an expression, or the trap that is met first on the way to it.
#[cycle(value)]
pub fn value_or_trap(
    alloc: Global,
    memory: Memory<'_>,
    expr: &Expr,
) -> Result<Result<i16, ValueTrap>, NoMemory>
    ensures { IfOk result (λ value. value ≡ value_or_trap (memory_now memory.entry) expr.now) }
{
    let chain = expr_chain(alloc, expr)?;
    let mut tails = chain.tails;
    let mut left = operand(alloc, memory, chain.first)?;
    while let Some(tail) = tails.pop() {
        let right = value_or_trap(alloc, memory, tail.right)?;
        left = applied(tail.op, left, right);
    }
    Ok(left)
}

/// The cell that a spot names, or the trap that is met first on the way to it.
#[cycle(value)]
pub fn cell_or_trap(
    alloc: Global,
    memory: Memory<'_>,
    spot: &Spot,
) -> Result<Result<Cell, ValueTrap>, NoMemory>
    ensures { IfOk result (λ cell. cell ≡ cell_or_trap (memory_now memory.entry) spot.now) }
{
    match spot {
        Spot::Local(place) => Ok(Ok(Cell::Local(*place))),
        Spot::Simple(item) => {
            let item = *item;
            Ok(Ok(Cell::Global { item, offset: 0 }))
        }
        Spot::Element { item, index } => {
            let index = value_or_trap(alloc, memory, index)?;
            Ok(element(memory, *item, index))
        }
    }
}

#[cycle(value)]
fn operand(
    alloc: Global,
    memory: Memory<'_>,
    first: Operand<'_>,
) -> Result<Result<i16, ValueTrap>, NoMemory>
    ensures { IfOk result (λ value. value ≡ value_or_trap (memory_now memory.entry) (expr_of first.entry)) }
{
    match first {
        Operand::Number(word) => Ok(Ok(word)),
        Operand::Read(spot) => {
            let cell = cell_or_trap(alloc, memory, spot)?;
            Ok(read(memory, cell))
        }
        Operand::Minus(inner) => {
            let inner = value_or_trap(alloc, memory, inner)?;
            Ok(negated(inner))
        }
    }
}
