ghost use Rattle.std.specs.Prelude.{◌≡◌};
ghost use Rattle.tal_values.specs.Seen.{memory_now};
ghost use Rattle.tal_values.specs.Value.{value_of, truth_of, cell_of};
ghost use Rattle.tal_code.specs.Spots.{spot_in};

use crate::code::{Code, TestCode};
use crate::run::run;
use crate::spot::{Aim, SpotCode};
use tal_values::operators::element;
use tal_values::{Cell, Memory};

/// The value of an expression. None is a trap: a zero divisor, or an index outside the bounds of its array.
pub fn value(memory: Memory<'_>, code: &Code) -> Option<i16>
    ensures { result ≡ value_of (memory_now memory.entry) code.now }
{
    run(memory, code.steps())
}

/// The truth of a condition. None is a trap of a value that the condition looks at.
pub fn truth(memory: Memory<'_>, code: &TestCode) -> Option<bool>
    ensures { result ≡ truth_of (memory_now memory.entry) code.now }
{
    let word = run(memory, code.steps())?;
    Some(word != 0)
}

/// The cell that a spot names. None is a trap: that of the index, or an index outside the bounds of its array.
pub fn cell(memory: Memory<'_>, code: &SpotCode) -> Option<Cell>
    ensures { result ≡ cell_of (memory_now memory.entry) code.now }
{
    aim_cell(memory, code.aim())
}

fn aim_cell(memory: Memory<'_>, aim: &Aim) -> Option<Cell>
    ensures { result ≡ cell_of (memory_now memory.entry) (spot_in aim.now) }
{
    match aim {
        Aim::Local(place) => Some(Cell::Local(*place)),
        Aim::Simple(item) => {
            let item = *item;
            Some(Cell::Global { item, offset: 0 })
        }
        Aim::Element { item, index } => element(memory, *item, value(memory, index)),
    }
}
