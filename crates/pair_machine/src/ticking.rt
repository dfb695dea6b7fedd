ghost use Rattle.std.specs.Prelude.{◌≡◌, ◌++◌, IfOk, OnOk, length};
ghost use Rattle.machine_states.specs.States.{Settles};
ghost use Rattle.message_wires.specs.computed_changes.specs.Stopped.{down_done, world_at_down};
ghost use Rattle.message_wires.specs.letters.specs.Again.{sent_again};
ghost use Rattle.number_laws.specs.message_wires.specs.HasRoom.{HasRoom};
ghost use Rattle.message_wires.specs.Play.{after_marked, marked_by, marks_from, tick_played};
ghost use Rattle.message_wires.specs.Wires.{paid_between, wires_again};
ghost use Rattle.world_copies.specs.Room.{AllWatchersHaveRoom};
ghost use Rattle.pair_machine.specs.Room.{AreCounted, AreCountedAfter};

use crate::whole::MachineParts;
use gd_words::{List, NoMemory};
use machine_states::Effect;
use posted_letters::Sending;

impl MachineParts {
    /// The tick of a node: it marks what has stopped, and puts on the bus again what it sent that is owed and not
    /// there.
    pub(crate) fn tick(&mut self, node: u8) -> Result<Effect, NoMemory>
        requires room { HasRoom self.old }
        requires letters { AreCountedAfter (tick_played node self.old) }
        ensures { IfOk result (λ effect. Settles (tick_played node self.old) self.old effect self.new) }
    {
        if !self.world.is_running(node) {
            return Ok(Effect::Skipped);
        }
        self.mark_stopped(node)?;
        self.put_again(node)?;
        Ok(Effect::Done)
    }

    /// Puts on the bus again what a node sent, that is owed and not there.
    fn put_again(&mut self, node: u8) -> Result<(), NoMemory>
        ensures { OnOk result (self.new ≡ record self.old
            { wires = wires_again self.old.world.stopped node self.old.wires }) }
    {
        self.wires.put_again(self.world.stopped(), node)?;
        Ok(())
    }

    /// A node marks each processor that has stopped and isn't marked yet. For most of a run none has.
    fn mark_stopped(&mut self, node: u8) -> Result<(), NoMemory>
        requires watching { AllWatchersHaveRoom self.old.world.processes }
        requires letters { AreCounted (marks_from node 0 (length self.old.world.stopped) self.old) }
        ensures { OnOk result (self.new ≡ marks_from node 0 (length self.old.world.stopped) self.old) }
    {
        if self.world.some_has_stopped() {
            self.mark_each(node)?;
        }
        Ok(())
    }

    /// A node looks at each processor, whether it is to be marked.
    fn mark_each(&mut self, node: u8) -> Result<(), NoMemory>
        requires watching { AllWatchersHaveRoom self.old.world.processes }
        requires letters { AreCounted (marks_from node 0 (length self.old.world.stopped) self.old) }
        ensures { OnOk result (self.new ≡ marks_from node 0 (length self.old.world.stopped) self.old) }
    {
        for processor in 0..self.world.processors() {
            self.mark(node, processor)?;
        }
        Ok(())
    }

    fn mark(&mut self, node: u8, processor: u8) -> Result<(), NoMemory>
        requires watching { AllWatchersHaveRoom self.old.world.processes }
        requires letters { AreCounted (marked_by node processor self.old (down_done node processor self.old.world)) }
        ensures { OnOk result (self.new ≡ marked_by node processor self.old (down_done node processor self.old.world)) }
    {
        if self.world.is_to_mark(node, processor) {
            self.mark_down(node, processor)?;
        }
        Ok(())
    }

    /// A node marks a processor that has stopped: what was owed between both is so no more, and what the mark sends is
    /// posted.
    fn mark_down(&mut self, node: u8, processor: u8) -> Result<(), NoMemory>
        requires watching { AllWatchersHaveRoom self.old.world.processes }
        requires letters { AreCounted (after_marked node processor self.old
            (world_at_down node processor self.old.world)) }
        ensures { OnOk result (self.new ≡ after_marked node processor self.old
            (world_at_down node processor self.old.world)) }
    {
        let sendings = self.mark_world(node, processor)?;
        self.pay_between(node, processor);
        self.post_all(sendings)?;
        Ok(())
    }

    /// What is between a node and a processor that it has marked is owed no more.
    fn pay_between(&mut self, node: u8, processor: u8)
        ensures { self.new ≡ record self.old { wires = paid_between node processor self.old.wires } }
    {
        self.wires.pay_between(node, processor);
    }

    /// A node marks a processor. What that sends isn't posted yet.
    fn mark_world(&mut self, node: u8, processor: u8) -> Result<List<Sending>, NoMemory>
        requires { AllWatchersHaveRoom self.old.world.processes }
        ensures told { IfOk result (λ sendings. sendings ≡ (world_at_down node processor self.old.world).sendings
            ++ sent_again self.old.site self.old.world
            (world_at_down node processor self.old.world).world node processor) }
        ensures state { OnOk result (self.new ≡ record self.old
            { world = (world_at_down node processor self.old.world).world }) }
    {
        let sendings = self.world.mark(node, processor)?;
        Ok(sendings)
    }
}
