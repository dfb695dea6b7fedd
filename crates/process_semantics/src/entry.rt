ghost use Rattle.std.specs.Prelude.{◌≡◌, ◌≤◌};
ghost use Rattle.process_semantics.specs.Rests.{entry_number};
ghost use Rattle.process_semantics.specs.SeenEntries.{entry_of};
ghost use Rattle.tal_tree.specs.Statements.{body_before, last_of};
ghost use Rattle.tal_tree.specs.declared.statement.What.{out-What};

use tal_tree::{Statement, What};

/// What is to be done in a procedure.
#[derive(Clone, Copy)]
pub enum Entry<'a> {
    /// The statement.
    Run(&'a Statement),
    /// The test of a FOR.
    Test(&'a Statement),
    /// The last assignment of a FOR.
    Last(&'a Statement),
}

/// The number of an entry: that of its statement, and those of a FOR's test and of its last assignment.
pub fn entry_number(entry: Entry<'_>) -> u32
    ensures number { result ≡ entry_number (entry_of entry.entry) }
    ensures few { result ≤ 65536 }
{
    match entry {
        Entry::Run(statement) => u32::from(statement.number),
        Entry::Test(statement) => u32::from(statement.number) + 1,
        Entry::Last(statement) => u32::from(last_of(&statement.what)),
    }
}

fn last_of(what: &What) -> u16
    ensures { result ≡ last_of (out-What what.now) }
{
    match what {
        What::For {
            variable: _,
            from: _,
            to: _,
            down: _,
            step: _,
            body: _,
            last,
        } => *last,
        What::Assign { .. }
        | What::AssignCall { .. }
        | What::If { .. }
        | What::While { .. }
        | What::DoUntil { .. }
        | What::Call { .. }
        | What::Return(_)
        | What::ReadUpdate { .. }
        | What::Reply { .. }
        | What::WriteRead { .. }
        | What::Checkpoint { .. }
        | What::CheckMonitor
        | What::Open(_)
        | What::Stop => 0,
    }
}

/// What is done before a statement's own step: the body of a DO.
pub fn body_before(what: &What) -> &[Statement]
    ensures { result.now ≡ body_before (out-What what.now) }
{
    match what {
        What::DoUntil { body, test: _ } => body.as_slice(),
        What::Assign { .. }
        | What::AssignCall { .. }
        | What::If { .. }
        | What::While { .. }
        | What::For { .. }
        | What::Call { .. }
        | What::Return(_)
        | What::ReadUpdate { .. }
        | What::Reply { .. }
        | What::WriteRead { .. }
        | What::Checkpoint { .. }
        | What::CheckMonitor
        | What::Open(_)
        | What::Stop => &[],
    }
}
