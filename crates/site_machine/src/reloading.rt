ghost use Rattle.std.specs.Prelude.{◌≡◌, is_some, IfOk, OnOk};
ghost use Rattle.schedule.specs.declared.event.Event.TheVariants as event;
ghost use Rattle.node.specs.computed_changes.specs.Stopped.{reload_done};
ghost use Rattle.node.specs.machine_states.specs.States.{Settles};
ghost use Rattle.node.specs.event_parts.specs.Numbers.{CanReload};
ghost use Rattle.node.specs.event_parts.specs.Parts.{carried_out};
ghost use Rattle.open_links.specs.world_copies.specs.message_wires.specs.HasRoom.{WorldHasRoom};
ghost use Rattle.node.specs.packet_wires.specs.Play.{play};
ghost use Rattle.node.specs.packet_wires.specs.Wires.{loaded_again};
ghost use Rattle.site_machine.specs.Needs.{IsReady};
ghost use Rattle.site_machine.specs.Told.{unsent};

use crate::whole::MachineParts;
use gd_words::NoMemory;
use node::Effect;

impl MachineParts {
    /// A processor is loaded again, where it can be. Nothing is sent.
    #[inline(never)]
    pub(crate) fn reload(&mut self, processor: u8) -> Result<Effect, NoMemory>
        requires { IsReady self.old }
        ensures { IfOk result (λ effect. Settles (play self.old (event.Reload processor)) self.old effect self.new) }
    {
        let done = self.reload_world(processor)?;
        if !done {
            return Ok(Effect::Skipped);
        }
        self.reload_wires(processor);
        Ok(Effect::Done)
    }

    /// The world after a reload, where there can be one. Answers whether there was.
    fn reload_world(&mut self, processor: u8) -> Result<bool, NoMemory>
        requires { WorldHasRoom self.old.world }
        ensures told { IfOk result (λ done. done ≡ is_some (reload_done self.old.site processor self.old.world)) }
        ensures state { OnOk result (self.new
            ≡ unsent self.old (reload_done self.old.site processor self.old.world)) }
    {
        let done = self.world.reload(processor)?;
        Ok(done)
    }

    /// The wires after a reload.
    fn reload_wires(&mut self, processor: u8)
        requires { CanReload processor self.old.wires.nodes }
        ensures { self.new ≡ record self.old
            { wires = carried_out (loaded_again self.old.site.processors processor) self.old.wires } }
    {
        let processors = self.world.site().processors;
        self.wires.reload(processors, processor);
    }
}
