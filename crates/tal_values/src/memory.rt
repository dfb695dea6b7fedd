ghost use Rattle.std.specs.Prelude.{◌≡◌};
ghost use Rattle.tal_values.specs.Value.{place_in, place_of, word_at};
ghost use Rattle.tal_values.specs.Seen.{memory_now};

use tal_tree::{Item, List, Shape};

/// What expressions read: the items of the program, the words of each item, and the words of the locals of the running
/// procedure.
#[derive(Clone, Copy)]
pub struct Memory<'a> {
    pub items: &'a [Item],
    pub globals: &'a [List<i16>],
    pub locals: &'a [i16],
}

/// Where a word stands: a local by its place in the procedure, or a word of an item by its place in the item's list.
#[derive(Clone, Copy, PartialEq, Eq)]
pub enum Cell {
    Local(u8),
    Global { item: u16, offset: u16 },
}

impl Memory<'_> {
    /// The word of a cell, where the cell is there.
    pub fn word(self, cell: Cell) -> Option<i16>
        ensures { result ≡ word_at (memory_now self.entry) cell }
    {
        match cell {
            Cell::Local(place) => self.locals.get(usize::from(place)).copied(),
            Cell::Global { item, offset } => match self.globals.get(usize::from(item)) {
                None => None,
                Some(words) => words.as_slice().get(usize::from(offset)).copied(),
            },
        }
    }

    /// The place of an element of an item in the item's list.
    pub fn place(self, item: u16, index: i16) -> Option<u16>
        ensures { result ≡ place_of (memory_now self.entry) item index }
    {
        match self.items.get(usize::from(item)) {
            None => None,
            Some(item) => place_in(item.shape, index),
        }
    }
}

fn place_in(shape: Shape, index: i16) -> Option<u16>
    ensures { result ≡ place_in shape index }
{
    match shape {
        Shape::Array { low, high } => {
            if low <= index && index <= high {
                Some(index.abs_diff(low))
            } else {
                None
            }
        }
        Shape::Simple => None,
        Shape::File(_) => None,
    }
}
