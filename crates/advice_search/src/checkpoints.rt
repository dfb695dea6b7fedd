ghost use Rattle.std.specs.Prelude.{◌≡◌, ◌++◌, ◌∷◌, [], map, IfOk, OnOk};
ghost use Rattle.advice.specs.Answer.{checkpoints_of as program_checkpoints};
ghost use Rattle.advice_search.specs.Lists.{place_of, places_of};

use gd_words::{List, NoMemory};
use std::alloc::Global;
use tal_tree::{Program, Statement, What};

/// Where a CHECKPOINT stands: the number of its statement, and its line.
#[derive(Clone, Copy)]
pub(crate) struct Checkpoint {
    pub(crate) statement: u16,
    pub(crate) line: u32,
}

/// The CHECKPOINTs of a program, in the order of the text.
pub(crate) fn checkpoints_of(alloc: Global, program: &Program) -> Result<List<Checkpoint>, NoMemory>
    ensures { IfOk result (λ found. found ≡ map place_of (program_checkpoints program.now)) }
{
    let mut found = List::new(alloc);
    let procedures = program.procedures.as_slice();
    for procedure in procedures {
        push_all(procedure.body.as_slice(), &mut found)?;
    }
    Ok(found)
}

/// Puts the CHECKPOINTs among statements, at any level, behind others.
#[cycle(checkpoints)]
fn push_all(statements: &[Statement], found: &mut List<Checkpoint>) -> Result<(), NoMemory>
    ensures { OnOk result (found.new ≡ found.old ++ places_of statements.now) }
{
    for statement in statements {
        push_in(statement, found)?;
    }
    Ok(())
}

/// Puts a statement, if it is a CHECKPOINT, and the CHECKPOINTs in it behind others.
#[cycle(checkpoints)]
fn push_in(statement: &Statement, found: &mut List<Checkpoint>) -> Result<(), NoMemory>
    ensures { OnOk result (found.new ≡ found.old ++ places_of (statement.now ∷ [])) }
{
    match &statement.what {
        What::Checkpoint { items: _, files: _ } => {
            found.push(Checkpoint {
                statement: statement.number,
                line: statement.line,
            })?;
        }
        What::If { test: _, yes, no } => {
            push_all(yes.as_slice(), found)?;
            push_all(no.as_slice(), found)?;
        }
        What::While { test: _, body } => push_all(body.as_slice(), found)?,
        What::For {
            variable: _,
            from: _,
            to: _,
            down: _,
            step: _,
            body,
            last: _,
        } => push_all(body.as_slice(), found)?,
        What::DoUntil { body, test: _ } => push_all(body.as_slice(), found)?,
        _ => {}
    }
    Ok(())
}
