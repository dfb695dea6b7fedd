ghost use Rattle.std.specs.Prelude.{◌++◌, Some, codes, decimal};

use std::fmt;

/// Where a token of a program text begins. Both numbers are from 1, and columns count bytes; line 1 is the first line
/// of the text, in a deck the line after its `pair` line.
#[derive(Clone, Copy, Debug, PartialEq, Eq)]
pub struct Place {
    pub line: u32,
    pub column: u32,
}

impl fmt::Display for Place {
    ghost output = { λ place. Some (codes "line " ++ decimal place.line ++ codes ", column " ++ decimal place.column) };

    fn fmt<W: fmt::Write>(&self, f: &mut fmt::Formatter<W>) -> fmt::Result {
        let line = self.line;
        let column = self.column;
        write!(f, "line {line}, column {column}")
    }
}
