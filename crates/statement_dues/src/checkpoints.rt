ghost use Rattle.std.specs.Prelude.{◌≡◌, ◌++◌, flat_map, IfOk, OnOk};
ghost use Rattle.process_semantics.specs.SeenEntries.{entry_of};
ghost use Rattle.statement_dues.specs.Checkpoints as spec;
ghost use Rattle.statement_dues.specs.Checkpoints.{named_at, named_by, named_of};
ghost use Rattle.tal_tree.specs.declared.statement.What.{out-What};

use gd_words::{List, NoMemory};
use process_semantics::Entry;
use program_entries::entries_of;
use std::alloc::Global;
use tal_tree::{Program, Statement, What};

/// A CHECKPOINT: the number of its statement, its line, and what it names.
#[derive(Drop)]
pub struct NamedCheckpoint {
    pub statement: u16,
    pub line: u32,
    pub items: List<u16>,
    pub files: List<u8>,
}

/// The CHECKPOINTs of a program, at any level, in the order of the text.
pub fn checkpoints_of(alloc: Global, program: &Program) -> Result<List<NamedCheckpoint>, NoMemory>
    ensures { IfOk result (λ found. found ≡ spec.checkpoints_of program.now) }
{
    let entries = entries_of(alloc, program)?;
    let found = checkpoints_among(alloc, entries.as_slice())?;
    Ok(found)
}

fn checkpoints_among(
    alloc: Global,
    entries: &[Entry<'_>],
) -> Result<List<NamedCheckpoint>, NoMemory>
    ensures { IfOk result (λ found. found ≡ flat_map (λ entry. named_at (entry_of entry)) entries.now) }
{
    let mut found = List::new(alloc);
    for entry in entries {
        push_named(alloc, *entry, &mut found)?;
    }
    Ok(found)
}

/// Puts what has to be done behind others, if it is a CHECKPOINT.
fn push_named(
    alloc: Global,
    entry: Entry<'_>,
    found: &mut List<NamedCheckpoint>,
) -> Result<(), NoMemory>
    ensures { OnOk result (found.new ≡ found.old ++ named_at (entry_of entry.entry)) }
{
    match entry {
        Entry::Run(statement) => push_checkpoint(alloc, statement, found),
        Entry::Test(_) | Entry::Last(_) => Ok(()),
    }
}

fn push_checkpoint(
    alloc: Global,
    statement: &Statement,
    found: &mut List<NamedCheckpoint>,
) -> Result<(), NoMemory>
    ensures { OnOk result (found.new ≡ found.old
        ++ named_by statement.now.number statement.now.line (out-What statement.now.what)) }
{
    match &statement.what {
        What::Checkpoint { items, files } => {
            let named = named_of(alloc, statement, items.as_slice(), files.as_slice())?;
            found.push(named)?;
        }
        What::Assign { .. }
        | What::AssignCall { .. }
        | What::If { .. }
        | What::While { .. }
        | What::For { .. }
        | What::DoUntil { .. }
        | What::Call { .. }
        | What::Return(_)
        | What::ReadUpdate { .. }
        | What::Reply { .. }
        | What::WriteRead { .. }
        | What::CheckMonitor
        | What::Open(_)
        | What::Stop => {}
    }
    Ok(())
}

fn named_of(
    alloc: Global,
    statement: &Statement,
    items: &[u16],
    files: &[u8],
) -> Result<NamedCheckpoint, NoMemory>
    ensures { IfOk result (λ named. named ≡ named_of statement.now.number statement.now.line items.now files.now) }
{
    let mut named = NamedCheckpoint {
        statement: statement.number,
        line: statement.line,
        items: List::new(alloc),
        files: List::new(alloc),
    };
    named.items.extend_from_slice(items)?;
    named.files.extend_from_slice(files)?;
    Ok(named)
}
