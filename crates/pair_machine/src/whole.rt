ghost use Rattle.std.specs.Prelude.{◌≡◌, length, IfOk, OnOk};
ghost use Rattle.message_wires.specs.Idle.{is_idle};
ghost use Rattle.message_wires.specs.Play.{machine_at_boot};
ghost use Rattle.world_copies.specs.process_copies.specs.Starting.{IsStartable};
ghost use Rattle.pair_machine.specs.Seen.{closed_state};

use gd_words::NoMemory;
use logs::Shared;
use posted_letters::PostedLetters;
use std::alloc::Global;
use std::marker::Model;
use tal_tree::Site;
use world_copies::WorldCopies;

/// All of the machine: the world, and the wires.
#[derive(Drop)]
pub struct MachineParts {
    pub(crate) world: WorldCopies,
    pub(crate) wires: PostedLetters,
}

impl Model for MachineParts {
    ghost use Rattle.std.specs.Coded.{codes};
    ghost use Rattle.tal_tree.specs.contracts.statement.Statement as statement;
    ghost use Rattle.message_wires.specs.Play as play;

    ghost Value = { play.MachineState };

    ghost coded = { Prim.hlevel (codes, statement.the_row.coded) };

    ghost view = { λ m. record {
      site = m.world.site;
      world = m.world.world;
      wires = m.wires;
      drives = m.world.drives;
    } };
}

impl MachineParts {
    /// The state at the beginning.
    pub(crate) fn boot(alloc: Global, site: &Shared<Site>) -> Result<MachineParts, NoMemory>
        requires { IsStartable site.now }
        ensures { IfOk result (λ whole. whole ≡ machine_at_boot site.now) }
    {
        let world = WorldCopies::boot(alloc, site)?;
        let wires = PostedLetters::new(alloc, site.get().processors)?;
        Ok(MachineParts { world, wires })
    }

    /// How many packets are on the bus.
    pub(crate) fn packets(&self) -> u32
        ensures { result ≡ length self.now.wires.bus }
    {
        self.wires.packets()
    }

    /// Whether nothing is left to do. What is owed is looked at first, since that takes least.
    pub(crate) fn is_idle(&self) -> bool
        ensures { result ≡ is_idle self.now }
    {
        self.wires.none_owed(self.world.stopped())
            && self.world.none_enters()
            && self.world.none_runs()
            && self.world.none_awaits_taking()
            && self.world.all_marked()
    }

    /// The run is closed: what copies still hold is kept, in the order of the deck.
    pub(crate) fn close(&mut self) -> Result<(), NoMemory>
        ensures { OnOk result (self.new ≡ closed_state self.old) }
    {
        self.world.close()?;
        Ok(())
    }
}
