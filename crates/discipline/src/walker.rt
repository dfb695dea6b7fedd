ghost use Rattle.std.specs.Prelude.{◌≡◌, Some, None};
ghost use Rattle.discipline.specs.declared.walker.Way.TheVariants.{Onward};
ghost use Rattle.discipline.specs.Walker.{IsNext, AreWays, AreRunWays, AreTestWays};

use crate::find::{Found, find, first_number};
use crate::stack::Position;
use process_semantics::Entry;
use tal_tree::{Program, Statement, What};

/// Where an entry leads.
#[derive(Clone, Copy)]
pub(crate) enum Way {
    /// On in its procedure, to this number, 0 at the end.
    Onward(u32),
    /// Into a procedure.
    Into(u16),
    /// To the program's end.
    End,
}

/// The one or two ways of an entry.
#[derive(Clone, Copy)]
pub(crate) struct Ways {
    pub(crate) first: Way,
    pub(crate) second: Option<Way>,
}

impl Ways {
    fn one(first: Way) -> Ways
        ensures { result ≡ record { first = first; second = None } }
    {
        Ways {
            first,
            second: None,
        }
    }

    /// Onward to either of two numbers.
    fn either(first: u32, second: u32) -> Ways
        ensures { result ≡ record { first = Onward first; second = Some (Onward second) } }
    {
        Ways {
            first: Way::Onward(first),
            second: Some(Way::Onward(second)),
        }
    }
}

/// What comes next at a position.
pub(crate) fn next<'a>(program: &'a Program, position: Position) -> Option<Found<'a>>
    ensures { IsNext program.now position result }
{
    match program.procedures.get(usize::from(position.procedure)) {
        None => None,
        Some(procedure) => find(procedure.body.as_slice(), 0, position.number),
    }
}

/// Where an entry leads.
pub(crate) fn ways_at(found: Found<'_>) -> Ways
    ensures { AreWays found.entry result }
{
    match found.entry {
        Entry::Run(statement) => run_ways(statement, found.after),
        Entry::Test(statement) => test_ways(statement, found.after),
        Entry::Last(_) => Ways::one(Way::Onward(found.after)),
    }
}

fn run_ways(statement: &Statement, after: u32) -> Ways
    ensures { AreRunWays statement.now after result }
{
    match &statement.what {
        What::If { test: _, yes, no } => Ways::either(
            first_number(yes.as_slice(), after),
            first_number(no.as_slice(), after),
        ),
        What::While { test: _, body } => Ways::either(
            first_number(body.as_slice(), u32::from(statement.number)),
            after,
        ),
        What::DoUntil { body, test: _ } => Ways::either(
            after,
            first_number(body.as_slice(), u32::from(statement.number)),
        ),
        What::For {
            variable: _,
            from: _,
            to: _,
            down: _,
            step: _,
            body: _,
            last: _,
        } => Ways::one(Way::Onward(u32::from(statement.number) + 1)),
        What::AssignCall {
            to: _,
            procedure,
            arguments: _,
        } => Ways::one(Way::Into(*procedure)),
        What::Call {
            procedure,
            arguments: _,
        } => Ways::one(Way::Into(*procedure)),
        What::Return(_) => Ways::one(Way::Onward(0)),
        What::Stop => Ways::one(Way::End),
        What::Assign { .. }
        | What::ReadUpdate { .. }
        | What::Reply { .. }
        | What::WriteRead { .. }
        | What::Checkpoint { .. }
        | What::CheckMonitor
        | What::Open(_) => Ways::one(Way::Onward(after)),
    }
}

fn test_ways(statement: &Statement, after: u32) -> Ways
    ensures { AreTestWays statement.now after result }
{
    match &statement.what {
        What::For {
            variable: _,
            from: _,
            to: _,
            down: _,
            step: _,
            body,
            last,
        } => Ways::either(first_number(body.as_slice(), u32::from(*last)), after),
        _ => Ways::one(Way::Onward(after)),
    }
}
