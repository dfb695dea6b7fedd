ghost use Rattle.std.specs.Prelude.{◌≡◌, IfOk, OnOk};
ghost use Rattle.node.specs.packet_wires.specs.Play.{packeted_at_boot};
ghost use Rattle.open_links.specs.world_copies.specs.process_copies.specs.Starting.{IsStartable};
ghost use Rattle.site_machine.specs.Seen.{closed_state};

use gd_words::NoMemory;
use logs::Shared;
use node::PacketWires;
use open_links::WorldCopies;
use std::alloc::Global;
use std::marker::Model;
use tal_tree::Site;

/// All of the machine: the world, and the wires.
#[derive(Drop)]
pub struct MachineParts {
    pub(crate) alloc: Global,
    pub(crate) world: WorldCopies,
    pub(crate) wires: PacketWires,
}

impl Model for MachineParts {
    ghost use Rattle.std.specs.Coded.{codes};
    ghost use Rattle.tal_tree.specs.contracts.statement.Statement as statement;
    ghost use Rattle.node.specs.packet_wires.specs.Play as play;

    ghost Value = { play.Packeted };

    ghost coded = { Prim.hlevel (codes, statement.the_row.coded) };

    ghost view = { λ m. record {
      site = m.world.site;
      world = m.world.world;
      wires = m.wires;
      drives = m.world.drives;
    } };
}

impl MachineParts {
    /// The state at the beginning.
    pub(crate) fn boot(alloc: Global, site: &Shared<Site>) -> Result<MachineParts, NoMemory>
        requires { IsStartable site.now }
        ensures { IfOk result (λ whole. whole ≡ packeted_at_boot site.now) }
    {
        let world = WorldCopies::boot(alloc, site)?;
        let wires = PacketWires::boot(alloc, site.get().processors)?;
        Ok(MachineParts {
            alloc,
            world,
            wires,
        })
    }

    /// The run is closed: what copies still hold is kept, in the order of the deck.
    pub(crate) fn close(&mut self) -> Result<(), NoMemory>
        ensures { OnOk result (self.new ≡ closed_state self.old) }
    {
        self.world.close()?;
        Ok(())
    }
}
