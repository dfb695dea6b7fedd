ghost use Rattle.std.specs.Prelude.{◌≡◌, ◌<◌, ◌≤◌, [], ◌∷◌, ◌++◌, length};
ghost use Rattle.gd_words.specs.declared.limits.TheConstants.{MOST_PROCESSORS};

use crate::rows::Row;
use arrayvec::ArrayVec;
use std::marker::Model;

/// The row of a processor.
#[derive(Clone, Copy, PartialEq, Eq, Default)]
pub struct ProcessorRow {
    pub processor: u8,
    pub row: Row,
}

/// The rows of the processors of a site.
#[derive(Drop)]
pub struct Table {
    rows: ArrayVec<ProcessorRow, 16>,
}

impl Model for Table {
    ghost use Rattle.std.specs.Prelude.{List};
    ghost use Rattle.std.specs.Coded.{codes};
    ghost use Rattle.run_table.specs.declared.table.ProcessorRow.{ProcessorRow};

    ghost Value = { List ProcessorRow };

    ghost coded = { Prim.hlevel codes };

    ghost view = { λ table. table.rows.items };
}

impl Table {
    /// A table without rows.
    pub fn new() -> Table
        ensures { result ≡ [] }
    {
        Table {
            rows: ArrayVec::new(),
        }
    }

    /// Puts the row of a processor at the end.
    pub fn push(&mut self, row: ProcessorRow)
        requires { length self.old < MOST_PROCESSORS }
        ensures { self.new ≡ self.old ++ row ∷ [] }
    {
        self.rows.push(row);
    }

    /// All rows, in order.
    pub fn rows(&self) -> &[ProcessorRow]
        ensures value { result.now ≡ self.now }
        ensures few { length result.now ≤ MOST_PROCESSORS }
    {
        self.rows.as_slice()
    }
}
