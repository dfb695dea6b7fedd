ghost use Rattle.std.specs.Prelude.{◌≡◌};
ghost use Rattle.process_semantics.specs.Changes.{variable_cell};

use tal_values::{Cell, Variable};

/// The cell of a simple variable.
pub fn variable_cell(variable: Variable) -> Cell
    ensures { result ≡ variable_cell variable }
{
    match variable {
        Variable::Local(local) => Cell::Local(local),
        Variable::Simple(item) => Cell::Global { item, offset: 0 },
    }
}
