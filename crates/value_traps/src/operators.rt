ghost use Rattle.std.specs.Prelude.{◌≡◌, neg_ℤ};
ghost use Rattle.tal_tree.specs.gd_words.specs.Arithmetic.{wrap};
ghost use Rattle.tal_values.specs.Seen.{memory_now};
ghost use Rattle.value_traps.specs.Traps.{made, of_both, place_or_trap, place_worked, quotient_or_trap};
ghost use Rattle.value_traps.specs.Traps.{word_or_trap, worked_on};

use crate::trap::ValueTrap;
use tal_tree::{Op, Shape, wrap_neg};
use tal_values::operators::applied as result_of;
use tal_values::{Cell, Memory};

/// What an operator gives of two sides.
pub(crate) fn applied(
    op: Op,
    left: Result<i16, ValueTrap>,
    right: Result<i16, ValueTrap>,
) -> Result<i16, ValueTrap>
    ensures { result ≡ of_both (quotient_or_trap op) left right }
{
    match (left, right) {
        (Err(trap), _) => Err(trap),
        (Ok(_), Err(trap)) => Err(trap),
        (Ok(left), Ok(right)) => quotient_or_trap(op, left, right),
    }
}

fn quotient_or_trap(op: Op, left: i16, right: i16) -> Result<i16, ValueTrap>
    ensures { result ≡ quotient_or_trap op left right }
{
    match result_of(op, Some(left), Some(right)) {
        None => Err(ValueTrap::ZeroDivisor),
        Some(word) => Ok(word),
    }
}

/// The negative of a word.
pub(crate) fn negated(value: Result<i16, ValueTrap>) -> Result<i16, ValueTrap>
    ensures { result ≡ made (λ x. wrap (neg_ℤ x)) value }
{
    match value {
        Err(trap) => Err(trap),
        Ok(word) => Ok(wrap_neg(word)),
    }
}

/// The word of a cell.
pub(crate) fn read(memory: Memory<'_>, cell: Result<Cell, ValueTrap>) -> Result<i16, ValueTrap>
    ensures { result ≡ worked_on (word_or_trap (memory_now memory.entry)) cell }
{
    match cell {
        Err(trap) => Err(trap),
        Ok(cell) => word_or_trap(memory, cell),
    }
}

/// The word of a cell that is there.
pub fn word_or_trap(memory: Memory<'_>, cell: Cell) -> Result<i16, ValueTrap>
    ensures { result ≡ word_or_trap (memory_now memory.entry) cell }
{
    match memory.word(cell) {
        None => Err(ValueTrap::NotThere),
        Some(word) => Ok(word),
    }
}

/// The cell of the element of an item at an index.
pub(crate) fn element(
    memory: Memory<'_>,
    item: u16,
    index: Result<i16, ValueTrap>,
) -> Result<Cell, ValueTrap>
    ensures { result ≡ made (Cell.Global item) (worked_on (place_worked (memory_now memory.entry) item) index) }
{
    match place(memory, item, index) {
        Err(trap) => Err(trap),
        Ok(offset) => Ok(Cell::Global { item, offset }),
    }
}

fn place(memory: Memory<'_>, item: u16, index: Result<i16, ValueTrap>) -> Result<u16, ValueTrap>
    ensures { result ≡ worked_on (place_worked (memory_now memory.entry) item) index }
{
    match index {
        Err(trap) => Err(trap),
        Ok(index) => place_worked(memory, item, index),
    }
}

fn place_worked(memory: Memory<'_>, item: u16, index: i16) -> Result<u16, ValueTrap>
    ensures { result ≡ place_worked (memory_now memory.entry) item index }
{
    match memory.items.get(usize::from(item)) {
        None => Err(ValueTrap::NotThere),
        Some(item) => place_or_trap(item.shape, index),
    }
}

fn place_or_trap(shape: Shape, index: i16) -> Result<u16, ValueTrap>
    ensures { result ≡ place_or_trap shape index }
{
    match shape {
        Shape::Array { low, high } => {
            if low <= index && index <= high {
                Ok(index.abs_diff(low))
            } else {
                Err(ValueTrap::Index { index, low, high })
            }
        }
        Shape::Simple => Err(ValueTrap::NotThere),
        Shape::File(_) => Err(ValueTrap::NotThere),
    }
}
