ghost use Rattle.std.specs.Prelude.{◌≡◌, IfOk, option_and_then};
ghost use Rattle.tal_values.specs.Chain.{expr_of};
ghost use Rattle.tal_values.specs.Seen.{memory_now};
ghost use Rattle.tal_values.specs.Value.{cell_of, value_of, word_at};

use crate::chain::{Operand, expr_chain};
use crate::memory::{Cell, Memory};
use crate::operators::{applied, element, negated};
use std::alloc::Global;
use tal_tree::{Expr, NoMemory, Spot};

/// The value of an expression. None is a trap: a zero divisor, or an index outside the bounds of its array.
#[cycle(value)]
pub fn value(alloc: Global, memory: Memory<'_>, expr: &Expr) -> Result<Option<i16>, NoMemory>
    ensures { IfOk result (λ value. value ≡ value_of (memory_now memory.entry) expr.now) }
{
    let chain = expr_chain(alloc, expr)?;
    let mut tails = chain.tails;
    let mut left = operand(alloc, memory, chain.first)?;
    while let Some(tail) = tails.pop() {
        let right = value(alloc, memory, tail.right)?;
        left = applied(tail.op, left, right);
    }
    Ok(left)
}

/// The cell that a spot names. None is a trap: that of the index, or an index outside the bounds of its array.
#[cycle(value)]
pub fn cell(alloc: Global, memory: Memory<'_>, spot: &Spot) -> Result<Option<Cell>, NoMemory>
    ensures { IfOk result (λ cell. cell ≡ cell_of (memory_now memory.entry) spot.now) }
{
    match spot {
        Spot::Local(place) => Ok(Some(Cell::Local(*place))),
        Spot::Simple(item) => {
            let item = *item;
            Ok(Some(Cell::Global { item, offset: 0 }))
        }
        Spot::Element { item, index } => {
            let index = value(alloc, memory, index)?;
            Ok(element(memory, *item, index))
        }
    }
}

#[cycle(value)]
fn operand(alloc: Global, memory: Memory<'_>, first: Operand<'_>) -> Result<Option<i16>, NoMemory>
    ensures { IfOk result (λ value. value ≡ value_of (memory_now memory.entry) (expr_of first.entry)) }
{
    match first {
        Operand::Number(word) => Ok(Some(word)),
        Operand::Read(spot) => {
            let cell = cell(alloc, memory, spot)?;
            Ok(read(memory, cell))
        }
        Operand::Minus(inner) => {
            let inner = value(alloc, memory, inner)?;
            Ok(negated(inner))
        }
    }
}

fn read(memory: Memory<'_>, cell: Option<Cell>) -> Option<i16>
    ensures { result ≡ option_and_then (word_at (memory_now memory.entry)) cell }
{
    memory.word(cell?)
}
