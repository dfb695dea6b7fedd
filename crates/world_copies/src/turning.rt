ghost use Rattle.std.specs.Prelude.{◌≡◌, [], slice_get};
ghost use Rattle.std.specs.Option.{option_copied, unwrap_or};
ghost use Rattle.process_copies.specs.disc_device.specs.mirror.specs.States.{drive_state_at};
ghost use Rattle.process_copies.specs.machine_states.specs.Drives.{drives_turned};
ghost use Rattle.process_copies.specs.node_copies.specs.Seen.{drives_on, sectors_on};
ghost use Rattle.world_copies.specs.Seen.{sectors_of};
ghost use Rattle.world_copies.specs.SiteWorld.{SettlesTurn};

use crate::copies::WorldCopies;
use process_copies::{Disc, DriveEvent, DriveState, Effect};

impl WorldCopies {
    /// A drive of a disc changes, if the disc has two and this one can change so. The world stays as it is.
    pub fn turn(&mut self, event: DriveEvent) -> Effect
        ensures { SettlesTurn (drives_turned event self.old.world.processes self.old.drives) event.process self.old
            result self.new }
    {
        let place = usize::from(event.process);
        if place >= self.processes.len() {
            return Effect::Skipped;
        }
        self.processes[place].turn(event.drive, event.change)
    }

    /// How a drive of a process stands; one that isn't there has failed.
    pub fn standing(&self, process: u8, drive: u8) -> DriveState
        ensures { result ≡ drive_state_at (unwrap_or (slice_get self.now.drives process) []) drive }
    {
        match self.processes.get(usize::from(process)) {
            None => DriveState::Failed,
            Some(placed) => placed.standing(drive),
        }
    }

    /// The device of a process, if it is a disc.
    pub fn disc(&self, process: u8) -> Option<&Disc>
        ensures sectors { sectors_on (option_copied result)
            ≡ sectors_of (slice_get self.now.world.processes process) }
        ensures drives { drives_on (option_copied result) ≡ unwrap_or (slice_get self.now.drives process) [] }
    {
        let placed = self.processes.get(usize::from(process))?;
        placed.disc()
    }
}
