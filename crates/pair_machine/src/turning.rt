ghost use Rattle.machine_states.specs.States.{Settles, drive_played};

use crate::whole::MachineParts;
use machine_states::Effect;
use schedule::DriveEvent;

impl MachineParts {
    /// A drive of a disc changes, if the disc has two and this one can change so.
    pub(crate) fn turn(&mut self, turn: DriveEvent) -> Effect
        ensures { Settles (drive_played turn self.old) self.old result self.new }
    {
        self.world.turn(turn)
    }
}
