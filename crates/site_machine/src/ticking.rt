ghost use Rattle.std.specs.Prelude.{◌≡◌, slice_get, IfOk, OnOk, Some};
ghost use Rattle.schedule.specs.declared.event.Event.TheVariants as event;
ghost use Rattle.node.specs.event_parts.specs.Numbers.{CanPush};
ghost use Rattle.node.specs.event_parts.specs.Parts.{carried_out};
ghost use Rattle.node.specs.machine_states.specs.States.{Settles};
ghost use Rattle.node.specs.packet_wires.specs.Play.{ended, marks_and_declares, play, pulled, pulls};
ghost use Rattle.node.specs.packet_wires.specs.Wires.{declares, midst_after_tick};
ghost use Rattle.open_links.specs.world_copies.specs.Room.{AllWatchersHaveRoom};
ghost use Rattle.site_machine.specs.Needs.{IsReady, DownsWithin};
ghost use Rattle.site_machine.specs.Told.{after_part, in_tick};

use crate::whole::MachineParts;
use gd_words::NoMemory;
use node::Effect;

impl MachineParts {
    /// The tick of a node: it sends what a tick sends, and pulls the line of a processor of which all agree that it is
    /// silent, if there is one.
    #[inline(always)]
    pub(crate) fn tick(&mut self, node: u8) -> Result<Effect, NoMemory>
        requires { IsReady self.old }
        ensures { IfOk result (λ effect. Settles (play self.old (event.Tick node)) self.old effect self.new) }
    {
        if !self.world.is_running(node) {
            return Ok(Effect::Skipped);
        }
        match self.wires.line_after_tick(node) {
            None => {
                self.tick_wires(node)?;
                Ok(Effect::Done)
            }
            Some(processor) => {
                let effect = self.tick_and_pull(node, processor)?;
                Ok(effect)
            }
        }
    }

    /// A node ticks, and pulls the line of a processor.
    #[inline(never)]
    fn tick_and_pull(&mut self, node: u8, processor: u8) -> Result<Effect, NoMemory>
        requires { IsReady self.old }
        ensures { IfOk result (λ effect. Settles (ended self.old.wires
            (pulls node (in_tick node self.old) (Some processor))) self.old effect self.new) }
    {
        match self.has_stopped(processor) {
            None => {
                self.tick_wires(node)?;
                Ok(Effect::Done)
            }
            Some(stopped) => {
                let effect = self.tick_and_mark(node, processor, stopped)?;
                Ok(effect)
            }
        }
    }

    /// A node ticks, and pulls the line of a processor that is there. If that one runs, it stops, but not in a world
    /// that isn't whole. The node marks it, and tells the others.
    fn tick_and_mark(&mut self, node: u8, processor: u8, stopped: bool) -> Result<Effect, NoMemory>
        requires ready { IsReady self.old }
        requires stopped { slice_get self.old.world.stopped processor ≡ Some stopped }
        ensures { IfOk result (λ effect. Settles (ended self.old.wires
            (pulled node processor (in_tick node self.old) (Some stopped))) self.old effect self.new) }
    {
        if stopped {
            self.tick_wires(node)?;
            self.mark_and_declare(node, processor)?;
            return Ok(Effect::Done);
        }
        if !self.world.is_whole() {
            return Ok(Effect::WouldStopSecond(processor));
        }
        self.tick_wires(node)?;
        self.stop(processor);
        self.mark_and_declare(node, processor)?;
        Ok(Effect::Done)
    }

    /// Whether a processor has stopped, if it is there.
    pub(crate) fn has_stopped(&self, processor: u8) -> Option<bool>
        ensures { result ≡ slice_get self.now.world.stopped processor }
    {
        self.world.stopped_at(processor)
    }

    /// A node sends what its tick sends.
    #[inline(always)]
    fn tick_wires(&mut self, node: u8) -> Result<(), NoMemory>
        requires { CanPush self.old.wires.nodes }
        ensures { OnOk result (self.new ≡ record self.old
            { wires = carried_out (midst_after_tick self.old.site.processors node) self.old.wires }) }
    {
        let processors = self.world.site().processors;
        self.wires.tick(node, processors)?;
        Ok(())
    }

    /// A node marks the processor whose line it pulled, and tells the others.
    fn mark_and_declare(&mut self, node: u8, processor: u8) -> Result<(), NoMemory>
        requires watching { AllWatchersHaveRoom self.old.world.processes }
        requires numbered { CanPush self.old.wires.nodes }
        requires within { DownsWithin self.old.site self.old.world }
        ensures { OnOk result (self.new ≡ after_part (marks_and_declares node processor) self.old) }
    {
        self.mark(node, processor)?;
        self.declare(node, processor)?;
        Ok(())
    }

    /// A node tells the others that a processor is down.
    fn declare(&mut self, node: u8, processor: u8) -> Result<(), NoMemory>
        requires { CanPush self.old.wires.nodes }
        ensures { OnOk result (self.new ≡ record self.old
            { wires = carried_out (declares self.old.site.processors node processor) self.old.wires }) }
    {
        let processors = self.world.site().processors;
        self.wires.declare(node, processors, processor)?;
        Ok(())
    }
}
