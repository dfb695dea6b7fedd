ghost use Rattle.std.specs.Prelude.{◌≡◌, ◌≤◌, length, map};
ghost use Rattle.path_semantics.specs.Bounds.{sizes, told};
ghost use Rattle.tal_tree.specs.Rows.{rows};
ghost use Rattle.flow_paths.specs.Layout.{size_in, size_row, size_at};
ghost use Rattle.gd_words.specs.declared.limits.TheConstants.{MOST_PROCEDURES};

use arrayvec::ArrayVec;
use gd_words::limits::MOST_PROCEDURES;
use tal_tree::{Program, Statement, What};

/// How many procedures a text has at most.
pub(crate) const PROCEDURES: usize = MOST_PROCEDURES as usize;

/// How large each procedure is with all calls written out; 4,294,967,295 also where it is larger.
pub(crate) fn sizes(program: &Program) -> ArrayVec<u32, PROCEDURES>
    requires few { length program.now.procedures ≤ MOST_PROCEDURES }
    ensures { result.items ≡ map told (sizes program.now) }
{
    let procedures = program.procedures.as_slice();
    let mut sizes: ArrayVec<u32, PROCEDURES> = ArrayVec::new();
    for procedure in procedures {
        let size = size_of_all(sizes.as_slice(), procedure.body.as_slice());
        sizes.push(size);
    }
    sizes
}

/// The size of a procedure, or 0 where it isn't known.
pub(crate) fn size_at(sizes: &[u32], procedure: u16) -> u32
    ensures { result ≡ size_at sizes.now procedure }
{
    sizes.get(usize::from(procedure)).copied().unwrap_or(0)
}

/// The size of statements, from the sizes of procedures.
#[cycle(size)]
pub(crate) fn size_of_all(sizes: &[u32], statements: &[Statement]) -> u32
    ensures { result ≡ told (size_row (size_at sizes.now) (rows statements.now)) }
{
    let mut size: u32 = 0;
    for statement in statements {
        size = size.saturating_add(size_of(sizes, statement));
    }
    size
}

/// The size of a statement, from the sizes of procedures.
#[cycle(size)]
pub(crate) fn size_of(sizes: &[u32], statement: &Statement) -> u32
    ensures { result ≡ told (size_in (size_at sizes.now) statement.now.what) }
{
    match &statement.what {
        What::If { test: _, yes, no } => {
            let first = size_of_all(sizes, yes.as_slice());
            let second = size_of_all(sizes, no.as_slice());
            first.saturating_add(second).saturating_add(1)
        }
        What::While { test: _, body } => size_of_all(sizes, body.as_slice()).saturating_add(1),
        What::For {
            variable: _,
            from: _,
            to: _,
            down: _,
            step: _,
            body,
            last: _,
        } => size_of_all(sizes, body.as_slice()).saturating_add(3),
        What::DoUntil { body, test: _ } => size_of_all(sizes, body.as_slice()).saturating_add(1),
        What::AssignCall {
            to: _,
            procedure,
            arguments: _,
        } => size_at(sizes, *procedure).saturating_add(1),
        What::Call {
            procedure,
            arguments: _,
        } => size_at(sizes, *procedure).saturating_add(1),
        _ => 1,
    }
}
