ghost use Rattle.std.specs.Prelude.{◌≡◌, ◌++◌, IfOk, OnOk};
ghost use Rattle.statement_lines.specs.Lines as spec;
ghost use Rattle.statement_lines.specs.Lines.{lines_before, lines_in, lines_within};

use std::alloc::Global;
use tal_tree::{List, NoMemory, Program, Statement, What};

/// The lines of a program's statements by their numbers: the line of number 1 first. A FOR's line stands there for each
/// of its three numbers, and a DO's, which is that of its UNTIL, behind those of its body.
pub fn lines_of(alloc: Global, program: &Program) -> Result<List<u32>, NoMemory>
    ensures { IfOk result (λ lines. lines ≡ spec.lines_of program.now) }
{
    let mut lines = List::new(alloc);
    let procedures = program.procedures.as_slice();
    for procedure in procedures {
        push_lines(procedure.body.as_slice(), &mut lines)?;
    }
    Ok(lines)
}

/// Puts the lines of statements, and of those that stand in them, behind others.
#[cycle(lines)]
fn push_lines(statements: &[Statement], lines: &mut List<u32>) -> Result<(), NoMemory>
    ensures { OnOk result (lines.new ≡ lines.old ++ lines_in statements.now) }
{
    for statement in statements {
        push_before(statement, lines)?;
        lines.push(statement.line)?;
        push_within(statement, lines)?;
    }
    Ok(())
}

/// Puts the lines that a statement has before its own behind others: those of a DO's body.
#[cycle(lines)]
fn push_before(statement: &Statement, lines: &mut List<u32>) -> Result<(), NoMemory>
    ensures { OnOk result (lines.new ≡ lines.old ++ lines_before statement.now.what) }
{
    match &statement.what {
        What::DoUntil { body, test: _ } => push_lines(body.as_slice(), lines),
        What::Assign { .. }
        | What::AssignCall { .. }
        | What::If { .. }
        | What::While { .. }
        | What::For { .. }
        | What::Call { .. }
        | What::Return(_)
        | What::ReadUpdate { .. }
        | What::Reply { .. }
        | What::WriteRead { .. }
        | What::Checkpoint { .. }
        | What::CheckMonitor
        | What::Open(_)
        | What::Stop => Ok(()),
    }
}

/// Puts the lines that a statement has behind its own behind others.
#[cycle(lines)]
fn push_within(statement: &Statement, lines: &mut List<u32>) -> Result<(), NoMemory>
    ensures { OnOk result (lines.new ≡ lines.old ++ lines_within statement.now.line statement.now.what) }
{
    match &statement.what {
        What::If { test: _, yes, no } => {
            push_lines(yes.as_slice(), lines)?;
            push_lines(no.as_slice(), lines)?;
        }
        What::While { test: _, body } => push_lines(body.as_slice(), lines)?,
        What::For {
            variable: _,
            from: _,
            to: _,
            down: _,
            step: _,
            body,
            last: _,
        } => {
            lines.push(statement.line)?;
            push_lines(body.as_slice(), lines)?;
            lines.push(statement.line)?;
        }
        What::Assign { .. }
        | What::AssignCall { .. }
        | What::DoUntil { .. }
        | What::Call { .. }
        | What::Return(_)
        | What::ReadUpdate { .. }
        | What::Reply { .. }
        | What::WriteRead { .. }
        | What::Checkpoint { .. }
        | What::CheckMonitor
        | What::Open(_)
        | What::Stop => {}
    }
    Ok(())
}
