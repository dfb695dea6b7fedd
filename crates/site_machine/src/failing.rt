ghost use Rattle.std.specs.Prelude.{◌≡◌, Some, false, slice_get};
ghost use Rattle.schedule.specs.declared.event.Event.TheVariants as event;
ghost use Rattle.node.specs.computed_changes.specs.Stopped.{stop_done, stopped_world};
ghost use Rattle.node.specs.machine_states.specs.States.{Settles};
ghost use Rattle.node.specs.packet_wires.specs.Play.{underway, ended, play, stop_acted};

use crate::whole::MachineParts;
use node::Effect;

impl MachineParts {
    /// A processor stops, if it runs, but not in a world that isn't whole.
    #[inline(never)]
    pub(crate) fn fail(&mut self, processor: u8) -> Effect
        ensures { Settles (play self.old (event.Fail processor)) self.old result self.new }
    {
        match self.has_stopped(processor) {
            None | Some(true) => Effect::Skipped,
            Some(false) => self.stop_where_whole(processor),
        }
    }

    /// A processor that runs stops, but not in a world that isn't whole.
    fn stop_where_whole(&mut self, processor: u8) -> Effect
        requires { slice_get self.old.world.stopped processor ≡ Some false }
        ensures { Settles (ended self.old.wires
            (stop_acted processor (underway self.old) (stop_done processor self.old.world))) self.old result self.new }
    {
        if !self.world.is_whole() {
            return Effect::WouldStopSecond(processor);
        }
        self.stop(processor);
        Effect::Done
    }

    pub(crate) fn stop(&mut self, processor: u8)
        ensures { self.new ≡ record self.old { world = stopped_world processor self.old.world } }
    {
        self.world.stop(processor);
    }
}
