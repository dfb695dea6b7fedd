ghost use Rattle.std.specs.Prelude.{◌≡◌, IfOk, OnOk};
ghost use Rattle.schedule.specs.declared.event.Event.TheVariants as event;
ghost use Rattle.node.specs.computed_changes.specs.Entered.{enter_done};
ghost use Rattle.node.specs.world_semantics.specs.Running.{run_done};
ghost use Rattle.node.specs.machine_states.specs.States.{Settles};
ghost use Rattle.open_links.specs.world_copies.specs.node_copies.specs.Seen.{step_sendings};
ghost use Rattle.open_links.specs.world_copies.specs.message_wires.specs.HasRoom.{WorldHasRoom};
ghost use Rattle.node.specs.packet_wires.specs.Play.{play};
ghost use Rattle.open_links.specs.world_copies.specs.Told.{sent_in};
ghost use Rattle.site_machine.specs.Needs.{IsReady};
ghost use Rattle.site_machine.specs.Told.{unsent};

use crate::whole::MachineParts;
use gd_words::NoMemory;
use node::Effect;
use open_links::StepOutcome;

impl MachineParts {
    /// A process runs.
    pub(crate) fn run(&mut self, number: u8) -> Result<Effect, NoMemory>
        requires { IsReady self.old }
        ensures { IfOk result (λ effect. Settles (play self.old (event.Run number)) self.old effect self.new) }
    {
        let step = self.run_process(number)?;
        let effect = self.tell(step)?;
        Ok(effect)
    }

    /// A terminal enters its next request.
    pub(crate) fn enter(&mut self, terminal: u8) -> Result<Effect, NoMemory>
        requires { IsReady self.old }
        ensures { IfOk result (λ effect. Settles (play self.old (event.Enter terminal)) self.old effect self.new) }
    {
        let step = self.enter_next(terminal)?;
        let effect = self.tell(step)?;
        Ok(effect)
    }

    /// A process makes its step, if it can. What that sends isn't posted yet.
    fn run_process(&mut self, number: u8) -> Result<StepOutcome, NoMemory>
        requires { WorldHasRoom self.old.world }
        ensures told { IfOk result (λ step. step_sendings step
            ≡ sent_in (run_done self.old.site number self.old.world)) }
        ensures state { OnOk result (self.new ≡ unsent self.old (run_done self.old.site number self.old.world)) }
    {
        let step = self.world.run(number)?;
        Ok(step)
    }

    /// A terminal enters, if it can. What that sends isn't posted yet.
    fn enter_next(&mut self, terminal: u8) -> Result<StepOutcome, NoMemory>
        requires { WorldHasRoom self.old.world }
        ensures told { IfOk result (λ step. step_sendings step
            ≡ sent_in (enter_done self.old.site terminal self.old.world)) }
        ensures state { OnOk result (self.new ≡ unsent self.old (enter_done self.old.site terminal self.old.world)) }
    {
        let step = self.world.enter(terminal)?;
        Ok(step)
    }
}
