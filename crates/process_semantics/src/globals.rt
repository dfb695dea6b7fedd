ghost use Rattle.std.specs.Prelude.{◌≡◌, ◌≤◌, ◌++◌, length, map, drop, IfOk};
ghost use Rattle.tal_values.specs.tal_tree.specs.Shapes.{width};
ghost use Rattle.process_semantics.specs.State.{zeros};

use std::alloc::Global;
use tal_values::{Item, List, NoMemory, Shape};

/// Puts items over those at the start of a list.
pub fn overwrite<T: Copy>(cells: &mut List<T>, items: &[T])
    requires { length items.now ≤ length cells.old }
    ensures { cells.new ≡ items.now ++ drop (length items.now) cells.old }
{
    for (k, item) in items.iter().enumerate() {
        cells.set(k, *item);
    }
}

/// The words of globals at the beginning: all are 0.
pub fn zeroed(alloc: Global, items: &[Item]) -> Result<Vec<List<i16>>, NoMemory>
    ensures { IfOk result (λ globals. globals.items ≡ map (λ item. zeros (width item.shape)) items.now) }
{
    let mut globals = Vec::new(alloc);
    for item in items {
        let words = zeros(alloc, width(item.shape))?;
        globals.push(words)?;
    }
    Ok(globals)
}

/// How many words a global has.
pub fn width(shape: Shape) -> usize
    ensures { result ≡ width shape }
{
    match shape {
        Shape::Array { low, high } => usize::from(high.abs_diff(low)) + 1,
        Shape::Simple => 1,
        Shape::File(_) => 0,
    }
}

/// So many words, all 0.
pub fn zeros(alloc: Global, len: usize) -> Result<List<i16>, NoMemory>
    ensures { IfOk result (λ words. words ≡ zeros len) }
{
    let mut words = List::new(alloc);
    for _ in 0..len {
        words.push(0)?;
    }
    Ok(words)
}
