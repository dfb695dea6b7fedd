ghost use Rattle.std.specs.Prelude.{◌≡◌, neg_ℤ, option_map, option_and_then};
ghost use Rattle.tal_tree.specs.gd_words.specs.Arithmetic.{wrap};
ghost use Rattle.tal_values.specs.Seen.{memory_now};
ghost use Rattle.tal_values.specs.Value.{both, holds, place_of, result_of};

use crate::memory::{Cell, Memory};
use tal_tree::{Op, Rel, div_trunc, wrap_add, wrap_mul, wrap_neg, wrap_sub};

/// The result of an operator on two words, none where one of them traps.
pub fn applied(op: Op, left: Option<i16>, right: Option<i16>) -> Option<i16>
    ensures { result ≡ both (result_of op) left right }
{
    let left = left?;
    let right = right?;
    match op {
        Op::Add => Some(wrap_add(left, right)),
        Op::Sub => Some(wrap_sub(left, right)),
        Op::Mul => Some(wrap_mul(left, right)),
        Op::Div => div_trunc(left, right),
    }
}

/// The negative of a word.
pub fn negated(value: Option<i16>) -> Option<i16>
    ensures { result ≡ option_map (λ x. wrap (neg_ℤ x)) value }
{
    Some(wrap_neg(value?))
}

/// The cell of the element of an item at an index.
pub fn element(memory: Memory<'_>, item: u16, index: Option<i16>) -> Option<Cell>
    ensures { result ≡ option_map (Cell.Global item) (option_and_then (place_of (memory_now memory.entry) item) index) }
{
    let offset = memory.place(item, index?)?;
    Some(Cell::Global { item, offset })
}

/// Whether two words stand in a relation.
pub fn holds(rel: Rel, left: i16, right: i16) -> bool
    ensures { result ≡ holds rel left right }
{
    match rel {
        Rel::Equal => left == right,
        Rel::Differs => left != right,
        Rel::Less => left < right,
        Rel::AtMost => left <= right,
        Rel::Greater => left > right,
        Rel::AtLeast => left >= right,
    }
}
