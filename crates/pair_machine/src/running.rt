ghost use Rattle.std.specs.Prelude.{◌≡◌, IfOk, OnOk};
ghost use Rattle.message_wires.specs.computed_changes.specs.Entered.{enter_done};
ghost use Rattle.machine_states.specs.States.{Settles};
ghost use Rattle.message_wires.specs.Play.{made_by};
ghost use Rattle.number_laws.specs.message_wires.specs.HasRoom.{HasRoom};
ghost use Rattle.world_semantics.specs.Running.{run_done};
ghost use Rattle.world_copies.specs.node_copies.specs.Seen.{step_sendings};
ghost use Rattle.world_copies.specs.Told.{sent_in};
ghost use Rattle.pair_machine.specs.Room.{AreCountedAfter};
ghost use Rattle.pair_machine.specs.Told.{unsent};

use crate::whole::MachineParts;
use gd_words::NoMemory;
use machine_states::Effect;
use world_copies::StepOutcome;

impl MachineParts {
    /// A process runs.
    pub(crate) fn run(&mut self, number: u8) -> Result<Effect, NoMemory>
        requires room { HasRoom self.old }
        requires letters { AreCountedAfter (made_by self.old (run_done self.old.site number self.old.world)) }
        ensures { IfOk result (λ effect. Settles (made_by self.old (run_done self.old.site number self.old.world))
            self.old effect self.new) }
    {
        let step = self.run_process(number)?;
        let effect = self.tell(step)?;
        Ok(effect)
    }

    /// A terminal enters its next request.
    pub(crate) fn enter(&mut self, terminal: u8) -> Result<Effect, NoMemory>
        requires room { HasRoom self.old }
        requires letters { AreCountedAfter (made_by self.old (enter_done self.old.site terminal self.old.world)) }
        ensures { IfOk result (λ effect. Settles (made_by self.old (enter_done self.old.site terminal self.old.world))
            self.old effect self.new) }
    {
        let step = self.enter_next(terminal)?;
        let effect = self.tell(step)?;
        Ok(effect)
    }

    /// A process makes its step, if it can. What that sends isn't posted yet.
    fn run_process(&mut self, number: u8) -> Result<StepOutcome, NoMemory>
        requires { HasRoom self.old }
        ensures told { IfOk result (λ step. step_sendings step
            ≡ sent_in (run_done self.old.site number self.old.world)) }
        ensures state { OnOk result (self.new ≡ unsent self.old (run_done self.old.site number self.old.world)) }
    {
        let step = self.world.run(number)?;
        Ok(step)
    }

    /// A terminal enters, if it can. What that sends isn't posted yet.
    fn enter_next(&mut self, terminal: u8) -> Result<StepOutcome, NoMemory>
        requires { HasRoom self.old }
        ensures told { IfOk result (λ step. step_sendings step
            ≡ sent_in (enter_done self.old.site terminal self.old.world)) }
        ensures state { OnOk result (self.new ≡ unsent self.old (enter_done self.old.site terminal self.old.world)) }
    {
        let step = self.world.enter(terminal)?;
        Ok(step)
    }
}
