ghost use Rattle.std.specs.Prelude.{◌≡◌, ◌++◌, IfOk, OnOk};
ghost use Rattle.node.specs.computed_changes.specs.Stopped.{world_at_down};
ghost use Rattle.node.specs.letters.specs.Again.{sent_again};
ghost use Rattle.node.specs.event_parts.specs.Numbers.{CanPush};
ghost use Rattle.node.specs.event_parts.specs.Parts.{carried_out};
ghost use Rattle.node.specs.packet_wires.specs.Play.{after_marked, marks};
ghost use Rattle.node.specs.packet_wires.specs.Wires.{cut_off};
ghost use Rattle.open_links.specs.world_copies.specs.Room.{AllWatchersHaveRoom};
ghost use Rattle.site_machine.specs.Needs.{AreWithin, DownsWithin};
ghost use Rattle.site_machine.specs.Told.{after_part};

use crate::whole::MachineParts;
use gd_words::{List, NoMemory};
use open_links::Sending;

impl MachineParts {
    /// A node marks a processor that has stopped, unless it has marked it before.
    pub(crate) fn mark(&mut self, node: u8, processor: u8) -> Result<(), NoMemory>
        requires watching { AllWatchersHaveRoom self.old.world.processes }
        requires numbered { CanPush self.old.wires.nodes }
        requires within { DownsWithin self.old.site self.old.world }
        ensures { OnOk result (self.new ≡ after_part (marks node processor) self.old) }
    {
        if self.world.is_to_mark(node, processor) {
            self.mark_down(node, processor)?;
        }
        Ok(())
    }

    /// A node marks a processor that has stopped: it cuts that one off, and what the mark sends is posted.
    fn mark_down(&mut self, node: u8, processor: u8) -> Result<(), NoMemory>
        requires watching { AllWatchersHaveRoom self.old.world.processes }
        requires numbered { CanPush self.old.wires.nodes }
        requires within { AreWithin (world_at_down node processor self.old.world).world
            ((world_at_down node processor self.old.world).sendings ++ sent_again self.old.site self.old.world
            (world_at_down node processor self.old.world).world node processor) }
        ensures { OnOk result (self.new ≡ after_part
            (λ u. after_marked node processor u (world_at_down node processor self.old.world)) self.old) }
    {
        let sendings = self.mark_world(node, processor)?;
        self.cut_off(node, processor);
        self.post_all(sendings)?;
        Ok(())
    }

    /// A node cuts a processor off.
    fn cut_off(&mut self, node: u8, processor: u8)
        ensures { self.new ≡ record self.old { wires = carried_out (cut_off node processor) self.old.wires } }
    {
        self.wires.cut_off(node, processor);
    }

    /// A node marks a processor. What that sends isn't posted yet.
    fn mark_world(&mut self, node: u8, processor: u8) -> Result<List<Sending>, NoMemory>
        requires { AllWatchersHaveRoom self.old.world.processes }
        ensures told { IfOk result (λ sendings. sendings ≡ (world_at_down node processor self.old.world).sendings
            ++ sent_again self.old.site self.old.world (world_at_down node processor self.old.world).world node
            processor) }
        ensures state { OnOk result (self.new ≡ record self.old
            { world = (world_at_down node processor self.old.world).world }) }
    {
        let sendings = self.world.mark(node, processor)?;
        Ok(sendings)
    }
}
