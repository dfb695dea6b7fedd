ghost use Rattle.std.specs.Prelude.{◌≡◌, ◌++◌, ◌∷◌, [], map, slice_get, IfOk, OnOk};
ghost use Rattle.std.specs.Option.{option_map};
ghost use Rattle.process_semantics.specs.SeenEntries.{entry_of};
ghost use Rattle.program_entries.specs.Entries as spec;
ghost use Rattle.program_entries.specs.Entries.{entries_before, entries_in, entries_within, entry_among};

use gd_words::NoMemory;
use process_semantics::Entry;
use std::alloc::Global;
use std::marker::Model;
use tal_tree::{Program, Statement, What};

/// What a program has to do, by its numbers.
#[derive(Drop)]
pub struct ProgramEntries<'a> {
    all: Vec<Entry<'a>>,
}

impl<'a> Model for ProgramEntries<'a> {
    ghost use Rattle.std.specs.Coded.{coded_list, codes};
    ghost use Rattle.std.specs.Prelude.{List, map};
    ghost use Rattle.tal_tree.specs.contracts.statement.Statement as statement;
    ghost use Rattle.process_semantics.specs.SeenEntries.{entry_of};
    ghost use Rattle.process_semantics.specs.State as semantics;

    ghost Value = { List semantics.Entry };

    ghost coded = { Prim.hlevel (codes, statement.the_row.coded) };

    ghost view = { λ entries. map entry_of entries.all.items };
}

impl<'a> ProgramEntries<'a> {
    /// What has this number.
    pub fn at(&self, number: u16) -> Option<Entry<'a>>
        ensures { option_map entry_of result ≡ entry_among self.now number }
    {
        if number == 0 {
            return None;
        }
        self.nth(usize::from(number) - 1)
    }

    /// All of them, number 1 first.
    pub fn as_slice(&self) -> &[Entry<'a>]
        ensures { map entry_of result.now ≡ self.now }
    {
        self.all.as_slice()
    }

    fn nth(&self, place: usize) -> Option<Entry<'a>>
        ensures { option_map entry_of result ≡ slice_get self.now place }
    {
        self.all.get(place).copied()
    }

    fn push(&mut self, entry: Entry<'a>) -> Result<(), NoMemory>
        ensures { OnOk result (self.new ≡ self.old ++ entry_of entry.entry ∷ []) }
    {
        self.all.push(entry)?;
        Ok(())
    }
}

/// All that a program has to do, number 1 first.
pub fn entries_of(alloc: Global, program: &Program) -> Result<ProgramEntries<'_>, NoMemory>
    ensures { IfOk result (λ entries. entries ≡ spec.entries_of program.now) }
{
    let mut entries = ProgramEntries {
        all: Vec::new(alloc),
    };
    let procedures = program.procedures.as_slice();
    for procedure in procedures {
        push_entries(procedure.body.as_slice(), &mut entries)?;
    }
    Ok(entries)
}

/// Puts what is to be done by statements, and by those that stand in them, behind others.
#[cycle(entries)]
fn push_entries<'a>(
    statements: &'a [Statement],
    entries: &mut ProgramEntries<'a>,
) -> Result<(), NoMemory>
    ensures { OnOk result (entries.new ≡ entries.old ++ entries_in statements.now) }
{
    for statement in statements {
        push_before(statement, entries)?;
        entries.push(Entry::Run(statement))?;
        push_within(statement, entries)?;
    }
    Ok(())
}

/// Puts what is to be done before a statement's own entry behind others: a DO's body.
#[cycle(entries)]
fn push_before<'a>(
    statement: &'a Statement,
    entries: &mut ProgramEntries<'a>,
) -> Result<(), NoMemory>
    ensures { OnOk result (entries.new ≡ entries.old ++ entries_before statement.now.what) }
{
    match &statement.what {
        What::DoUntil { body, test: _ } => push_entries(body.as_slice(), entries),
        What::Assign { .. }
        | What::AssignCall { .. }
        | What::If { .. }
        | What::While { .. }
        | What::For { .. }
        | What::Call { .. }
        | What::Return(_)
        | What::ReadUpdate { .. }
        | What::Reply { .. }
        | What::WriteRead { .. }
        | What::Checkpoint { .. }
        | What::CheckMonitor
        | What::Open(_)
        | What::Stop => Ok(()),
    }
}

/// Puts what is to be done within a statement behind others.
#[cycle(entries)]
fn push_within<'a>(
    statement: &'a Statement,
    entries: &mut ProgramEntries<'a>,
) -> Result<(), NoMemory>
    ensures { OnOk result (entries.new ≡ entries.old ++ entries_within statement.now statement.now.what) }
{
    match &statement.what {
        What::If { test: _, yes, no } => {
            push_entries(yes.as_slice(), entries)?;
            push_entries(no.as_slice(), entries)?;
        }
        What::While { test: _, body } => push_entries(body.as_slice(), entries)?,
        What::For {
            variable: _,
            from: _,
            to: _,
            down: _,
            step: _,
            body,
            last: _,
        } => {
            entries.push(Entry::Test(statement))?;
            push_entries(body.as_slice(), entries)?;
            entries.push(Entry::Last(statement))?;
        }
        What::Assign { .. }
        | What::AssignCall { .. }
        | What::DoUntil { .. }
        | What::Call { .. }
        | What::Return(_)
        | What::ReadUpdate { .. }
        | What::Reply { .. }
        | What::WriteRead { .. }
        | What::Checkpoint { .. }
        | What::CheckMonitor
        | What::Open(_)
        | What::Stop => {}
    }
    Ok(())
}
