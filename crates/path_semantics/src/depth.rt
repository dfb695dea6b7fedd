ghost use Rattle.std.specs.Prelude.{◌≡◌, ◌≤◌, [], ◌∷◌, length, slice_get};
ghost use Rattle.std.specs.Option.{unwrap_or};
ghost use Rattle.path_semantics.specs.Bounds.{greatest, of_called, depth_of};
ghost use Rattle.gd_words.specs.declared.limits.TheConstants.{MOST_PROCEDURES};

use arrayvec::ArrayVec;
use gd_words::limits::MOST_PROCEDURES;
use tal_tree::{Program, Statement, What};

/// How many procedures a text has at most.
const PROCEDURES: usize = MOST_PROCEDURES as usize;

/// How many procedures the longest chain of calls from a program's main procedure goes through, that one counted: 1
/// where it calls nothing. A call of a procedure that doesn't stand before its caller counts as none. The rule is our
/// own, for the bounds of the checkpoint discipline. A text has at most 64 procedures, so this takes no memory.
pub fn call_depth(program: &Program) -> u32
    requires few { length program.now.procedures ≤ MOST_PROCEDURES }
    ensures depth { result ≡ depth_of program.now }
    ensures most { result ≤ MOST_PROCEDURES }
{
    let procedures = program.procedures.as_slice();
    let mut depths: ArrayVec<u32, PROCEDURES> = ArrayVec::new();
    for procedure in procedures {
        let called = deepest(depths.as_slice(), procedure.body.as_slice());
        depths.push(called + 1);
    }
    depth_at(depths.as_slice(), program.main)
}

/// The depth of a procedure, or 0 where it isn't known yet.
fn depth_at(before: &[u32], procedure: u16) -> u32
    ensures { result ≡ unwrap_or (slice_get before.now procedure) 0 }
{
    before.get(usize::from(procedure)).copied().unwrap_or(0)
}

/// The greatest depth of what these statements call, at any level.
#[cycle(deepest)]
fn deepest(before: &[u32], statements: &[Statement]) -> u32
    ensures { result ≡ greatest (of_called before.now statements.now) }
{
    let mut found: u32 = 0;
    for statement in statements {
        found = found.max(deepest_in(before, statement));
    }
    found
}

/// The greatest depth of what a statement calls, at any level.
#[cycle(deepest)]
fn deepest_in(before: &[u32], statement: &Statement) -> u32
    ensures { result ≡ greatest (of_called before.now (statement.now ∷ [])) }
{
    match &statement.what {
        What::AssignCall {
            to: _,
            procedure,
            arguments: _,
        } => depth_at(before, *procedure),
        What::Call {
            procedure,
            arguments: _,
        } => depth_at(before, *procedure),
        What::If { test: _, yes, no } => {
            let first = deepest(before, yes.as_slice());
            let second = deepest(before, no.as_slice());
            first.max(second)
        }
        What::While { test: _, body } => deepest(before, body.as_slice()),
        What::For {
            variable: _,
            from: _,
            to: _,
            down: _,
            step: _,
            body,
            last: _,
        } => deepest(before, body.as_slice()),
        What::DoUntil { body, test: _ } => deepest(before, body.as_slice()),
        _ => 0,
    }
}
