ghost use Rattle.std.specs.Prelude.{◌≡◌, [], ◌∷◌, ◌++◌, reverse, IfOk, OnOk, OnErr};
ghost use Rattle.tal_tree.specs.declared.act.Act.TheVariants.{Step};
ghost use Rattle.world_semantics.specs.Kept.{own_acts};

use crate::counting::count_from;
use gd_words::NoMemory;
use logs::Log;
use std::alloc::Global;
use std::marker::Model;
use tal_tree::Act;

/// The kept acts, with how many of them are each process's own. Contracts see the list of the acts, the newest first.
#[derive(Drop)]
pub struct KeptActs {
    acts: Log<Act>,
    table: Vec<u64>,
}

impl Model for KeptActs {
    ghost use Rattle.std.specs.Prelude.{List};
    ghost use Rattle.tal_tree.specs.declared.act.Act.{Act};
    ghost use Rattle.kept_acts.specs.Counts.{Counts};

    ghost Value = { List Act };

    ghost view = { λ kept. kept.acts };

    ghost invariant = { λ kept. Counts kept.table.items kept.acts };
}

impl KeptActs {
    /// No act is kept yet.
    pub fn new(alloc: Global) -> Result<KeptActs, NoMemory>
        ensures { IfOk result (λ kept. kept ≡ []) }
    {
        let table = vec![in alloc; 0; 256]?;
        Ok(KeptActs {
            acts: Log::new(alloc),
            table,
        })
    }

    /// The kept acts, the oldest first.
    pub fn as_slice(&self) -> &[Act]
        ensures { result.now ≡ reverse self.now }
    {
        self.acts.as_slice()
    }

    /// How many of the kept acts are a process's own.
    pub fn length_of(&self, process: u8) -> u64
        ensures { result ≡ own_acts process self.now }
    {
        let table = self.table.as_slice();
        table[usize::from(process)]
    }

    /// Keeps an act.
    pub fn keep(&mut self, act: Act) -> Result<(), NoMemory>
        ensures ok { OnOk result (self.new ≡ act ∷ self.old) }
        ensures err { OnErr result (self.new ≡ self.old) }
    {
        let before = self.acts.len();
        self.acts.add(act)?;
        count_from(self.table.as_mut_slice(), self.acts.as_slice(), before);
        Ok(())
    }

    /// Keeps the acts that a copy holds, in their order: all of them, or none where memory is wanting.
    pub fn keep_all(&mut self, held: &Log<Act>) -> Result<(), NoMemory>
        ensures ok { OnOk result (self.new ≡ held.now ++ self.old) }
        ensures err { OnErr result (self.new ≡ self.old) }
    {
        let before = self.acts.len();
        self.acts.add_all(held)?;
        count_from(self.table.as_mut_slice(), self.acts.as_slice(), before);
        Ok(())
    }

    /// Keeps the acts that a copy of a process holds, and behind them the step at its checkpoint: all of them, or none
    /// where memory is wanting.
    pub fn keep_with_checkpoint(&mut self, process: u8, held: &Log<Act>) -> Result<(), NoMemory>
        ensures ok { OnOk result (self.new ≡ Step process ∷ (held.now ++ self.old)) }
        ensures err { OnErr result (self.new ≡ self.old) }
    {
        let before = self.acts.len();
        self.acts.add_all_and(held, Act::Step(process))?;
        count_from(self.table.as_mut_slice(), self.acts.as_slice(), before);
        Ok(())
    }
}
