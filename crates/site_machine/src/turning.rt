ghost use Rattle.schedule.specs.declared.event.Event.TheVariants as event;
ghost use Rattle.node.specs.machine_states.specs.States.{Settles};
ghost use Rattle.node.specs.packet_wires.specs.Play.{play};

use crate::whole::MachineParts;
use node::Effect;
use schedule::DriveEvent;

impl MachineParts {
    /// A drive of a disc changes, if the disc has two and this one can change so.
    #[inline(never)]
    pub(crate) fn turn(&mut self, turn: DriveEvent) -> Effect
        ensures { Settles (play self.old (event.Drive turn)) self.old result self.new }
    {
        self.world.turn(turn)
    }
}
