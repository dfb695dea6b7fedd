ghost use Rattle.std.specs.Prelude.{◌≡◌, map, IfOk};
ghost use Rattle.process_semantics.specs.SeenEntries.{entry_of};
ghost use Rattle.statement_dues.specs.Deeds as spec;
ghost use Rattle.statement_dues.specs.Deeds.{deed_of, is_checkpoint};

use gd_words::{List, NoMemory};
use process_semantics::Entry;
use program_entries::entries_of;
use reason_dues::{Reason, after_entry, after_return};
use std::alloc::Global;
use tal_tree::{Program, What};

/// What a statement does to what is due for a reason.
#[derive(Clone, Copy, PartialEq, Eq, Drop)]
pub enum Deed {
    Nothing,
    /// Its own step makes something due.
    MakesDue,
    /// It is a call, and the return from its procedure makes something due.
    GivesDue,
    /// It is a CHECKPOINT.
    Clears,
}

/// What the statements of a program do, by their numbers: that of number 1 first. A FOR has three, and a DO's stands
/// behind those of its body.
pub fn deeds_of(alloc: Global, program: &Program, reason: Reason) -> Result<List<Deed>, NoMemory>
    ensures { IfOk result (λ deeds. deeds ≡ spec.deeds_of reason program.now) }
{
    let entries = entries_of(alloc, program)?;
    let deeds = deeds_of_each(alloc, entries.as_slice(), reason)?;
    Ok(deeds)
}

fn deeds_of_each(
    alloc: Global,
    entries: &[Entry<'_>],
    reason: Reason,
) -> Result<List<Deed>, NoMemory>
    ensures { IfOk result (λ deeds. deeds ≡ map (λ entry. deed_of reason (entry_of entry)) entries.now) }
{
    let mut deeds = List::new(alloc);
    for entry in entries {
        deeds.push(deed_of(reason, *entry))?;
    }
    Ok(deeds)
}

fn deed_of(reason: Reason, entry: Entry<'_>) -> Deed
    ensures { result ≡ deed_of reason (entry_of entry.entry) }
{
    if is_checkpoint(entry) {
        Deed::Clears
    } else if after_entry(reason, entry, 0) != 0 {
        Deed::MakesDue
    } else if after_return(reason, 1, entry, 0) != 0 {
        Deed::GivesDue
    } else {
        Deed::Nothing
    }
}

fn is_checkpoint(entry: Entry<'_>) -> bool
    ensures { result ≡ is_checkpoint (entry_of entry.entry) }
{
    match entry {
        Entry::Run(statement) => match &statement.what {
            What::Checkpoint { items: _, files: _ } => true,
            What::Assign { .. }
            | What::AssignCall { .. }
            | What::If { .. }
            | What::While { .. }
            | What::For { .. }
            | What::DoUntil { .. }
            | What::Call { .. }
            | What::Return(_)
            | What::ReadUpdate { .. }
            | What::Reply { .. }
            | What::WriteRead { .. }
            | What::CheckMonitor
            | What::Open(_)
            | What::Stop => false,
        },
        Entry::Test(_) | Entry::Last(_) => false,
    }
}
