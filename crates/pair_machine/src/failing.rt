ghost use Rattle.std.specs.Prelude.{◌≡◌, Some, false, slice_get, IfOk};
ghost use Rattle.machine_states.specs.States.{Settles};
ghost use Rattle.message_wires.specs.computed_changes.specs.Stopped.{stop_done, stopped_world};
ghost use Rattle.message_wires.specs.Play.{fail_played, stop_played};

use crate::whole::MachineParts;
use gd_words::NoMemory;
use machine_states::Effect;

impl MachineParts {
    /// A processor stops, if it runs, but not in a world that isn't whole.
    pub(crate) fn fail(&mut self, processor: u8) -> Result<Effect, NoMemory>
        ensures { IfOk result (λ effect. Settles
            (fail_played processor self.old (slice_get self.old.world.stopped processor)) self.old effect self.new) }
    {
        match self.world.stopped_at(processor) {
            None | Some(true) => Ok(Effect::Skipped),
            Some(false) => Ok(self.stop_where_whole(processor)),
        }
    }

    /// A processor that runs stops, but not in a world that isn't whole.
    fn stop_where_whole(&mut self, processor: u8) -> Effect
        requires { slice_get self.old.world.stopped processor ≡ Some false }
        ensures { Settles (stop_played processor self.old (stop_done processor self.old.world)) self.old result
            self.new }
    {
        if !self.world.is_whole() {
            return Effect::WouldStopSecond(processor);
        }
        self.stop(processor);
        Effect::Done
    }

    fn stop(&mut self, processor: u8)
        ensures { self.new ≡ record self.old { world = stopped_world processor self.old.world } }
    {
        self.world.stop(processor);
    }
}
