ghost use Rattle.std.specs.Prelude.{◌≡◌, ◌<◌, ◌≤◌, ◌+◌, ℕ, length, false, IfOk};
ghost use Rattle.process_semantics.specs.SeenEntries.{entry_of};
ghost use Rattle.advice.specs.reason_dues.specs.Sets.{has_number};
ghost use Rattle.advice_search.specs.Gathered.{checkpoint_at, due_at, has_in, AreReadable, AreAdded};
ghost use Rattle.gd_words.specs.declared.limits.TheConstants.{MOST_STATEMENTS};

use advice::{Flow, Numbers, Visit};
use gd_words::NoMemory;
use gd_words::limits::MOST_STATEMENTS;
use process_semantics::Entry;
use std::alloc::Global;
use tal_tree::What;

/// How many numbers the statements of a program have at most, with 0, which none has.
const NUMBERS: usize = MOST_STATEMENTS as usize + 1;

/// For each number of a statement a set of globals, or of files: those that are due where the CHECKPOINT of this number
/// comes.
#[derive(Drop)]
pub(crate) struct DueSets {
    pub(crate) sets: Vec<Numbers>,
}

impl DueSets {
    /// Nothing is due anywhere.
    pub(crate) fn new(alloc: Global) -> Result<DueSets, NoMemory>
        ensures count { IfOk result (λ due. length due.sets.items ≡ MOST_STATEMENTS + 1) }
        ensures none { IfOk result (λ due. (number n : ℕ) → has_in due.sets.items number n ≡ false) }
    {
        let sets = vec![in alloc; Numbers::none(); NUMBERS]?;
        Ok(DueSets { sets })
    }

    /// The set of a number.
    pub(crate) fn get(&self, number: u16) -> Numbers
        ensures { (n : ℕ) → has_number result n ≡ has_in self.now.sets.items number n }
    {
        match self.sets.get(usize::from(number)) {
            Some(set) => *set,
            None => Numbers::none(),
        }
    }

    /// Adds a global or a file wherever one of these visits stands at a CHECKPOINT with something due.
    pub(crate) fn add(&mut self, flow: &Flow<'_>, visits: &[Visit], member: u16)
        requires count { length self.old.sets.items ≡ MOST_STATEMENTS + 1 }
        requires readable { AreReadable flow.now visits.now }
        ensures count { length self.new.sets.items ≡ MOST_STATEMENTS + 1 }
        ensures added { AreAdded flow.now visits.now member self.old.sets.items self.new.sets.items }
    {
        for visit in visits {
            if let Some(number) = due_at(flow, *visit) {
                let place = usize::from(number);
                self.sets[place] = self.sets[place].with(member);
            }
        }
    }
}

/// The number of the CHECKPOINT at which a visit stands with something due.
fn due_at(flow: &Flow<'_>, visit: Visit) -> Option<u16>
    requires { visit.node < length flow.now }
    ensures { result ≡ due_at flow.now visit }
{
    if visit.due >= 1 {
        checkpoint_at(flow.node(visit.node).entry())
    } else {
        None
    }
}

/// The number of a CHECKPOINT.
fn checkpoint_at(entry: Entry<'_>) -> Option<u16>
    ensures { result ≡ checkpoint_at (entry_of entry.entry) }
{
    match entry {
        Entry::Run(statement) => match &statement.what {
            What::Checkpoint { items: _, files: _ } => Some(statement.number),
            _ => None,
        },
        _ => None,
    }
}
