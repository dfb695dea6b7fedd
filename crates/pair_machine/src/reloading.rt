ghost use Rattle.std.specs.Prelude.{◌≡◌, is_some, IfOk, OnOk};
ghost use Rattle.machine_states.specs.States.{Settles};
ghost use Rattle.message_wires.specs.computed_changes.specs.Stopped.{reload_done};
ghost use Rattle.message_wires.specs.Play.{reload_played};
ghost use Rattle.message_wires.specs.Wires.{wires_after_reload};
ghost use Rattle.number_laws.specs.message_wires.specs.HasRoom.{HasRoom};
ghost use Rattle.pair_machine.specs.Told.{unsent};

use crate::whole::MachineParts;
use gd_words::NoMemory;
use machine_states::Effect;

impl MachineParts {
    /// A processor is loaded again, where it can be: what was sent from it or to it before comes no more.
    pub(crate) fn reload(&mut self, processor: u8) -> Result<Effect, NoMemory>
        requires { HasRoom self.old }
        ensures { IfOk result (λ effect. Settles
            (reload_played processor self.old (reload_done self.old.site processor self.old.world)) self.old effect
            self.new) }
    {
        let done = self.reload_world(processor)?;
        if !done {
            return Ok(Effect::Skipped);
        }
        self.reload_wires(processor);
        Ok(Effect::Done)
    }

    /// The world after a reload, where there can be one. Answers whether there was.
    fn reload_world(&mut self, processor: u8) -> Result<bool, NoMemory>
        requires { HasRoom self.old }
        ensures told { IfOk result (λ done. done ≡ is_some (reload_done self.old.site processor self.old.world)) }
        ensures state { OnOk result (self.new
            ≡ unsent self.old (reload_done self.old.site processor self.old.world)) }
    {
        let done = self.world.reload(processor)?;
        Ok(done)
    }

    /// The wires after a reload.
    fn reload_wires(&mut self, processor: u8)
        ensures { self.new ≡ record self.old { wires = wires_after_reload processor self.old.wires } }
    {
        self.wires.reload(processor);
    }
}
