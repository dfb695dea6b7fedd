ghost use Rattle.std.specs.Prelude.{◌≡◌, ◌<◌, length};
ghost use Rattle.std.specs.Bool.{OnTrue};
ghost use Rattle.disc_device.specs.mirror.specs.Mirror.{content};
ghost use Rattle.disc_device.specs.mirror.specs.States.{states_of};
ghost use Rattle.node_copies.specs.machine_states.specs.Drives.{is_of_two, outcome_of_drive_change, turned_by};
ghost use Rattle.node_copies.specs.Seen.{drives_on, sectors_on};
ghost use Rattle.process_copies.specs.Turning.{TurnsDrives, TurnsPlaced};

use crate::copies::ProcessCopies;
use disc_device::{Disc, Failing};
use node_copies::Effect;
use schedule::DriveChange;

impl ProcessCopies {
    /// A drive of its device changes, if it has two and this one can change so. Nothing else does.
    pub fn turn(&mut self, drive: u8, change: DriveChange) -> Effect
        ensures process { TurnsPlaced (outcome_of_drive_change change (length self.old.pair.sectors) drive
            self.old.drives) self.old
            result self.new }
        ensures site { self.new.site ≡ self.old.site }
        ensures number { self.new.number ≡ self.old.number }
        ensures pair { self.new.pair ≡ self.old.pair }
    {
        turn_on(&mut self.device, self.number, drive, change)
    }
}

/// A drive of the device of this process changes, if there are two and this one can change so.
fn turn_on(device: &mut Option<Disc>, process: u8, drive: u8, change: DriveChange) -> Effect
    ensures drives { TurnsDrives (outcome_of_drive_change change (length (sectors_on device.old)) drive
        (drives_on device.old)) process
        (drives_on device.old) result (drives_on device.new) }
    ensures sectors { sectors_on device.new ≡ sectors_on device.old }
{
    match device {
        None => Effect::Skipped,
        Some(disc) => turn_disc(disc, process, drive, change),
    }
}

/// A drive of the disc of this process changes, if the disc has two and this one can change so.
fn turn_disc(disc: &mut Disc, process: u8, drive: u8, change: DriveChange) -> Effect
    ensures drives { TurnsDrives (outcome_of_drive_change change (length (content disc.old)) drive
        (states_of disc.old)) process
        (states_of disc.old) result (states_of disc.new) }
    ensures sectors { content disc.new ≡ content disc.old }
{
    if is_of_two(disc, drive) {
        turn_one(disc, process, drive, change)
    } else {
        Effect::Skipped
    }
}

/// Whether the disc has two drives, and this is one of them.
fn is_of_two(disc: &Disc, drive: u8) -> bool
    ensures is { result ≡ is_of_two drive (states_of disc.now) }
    ensures two { OnTrue result (length disc.now ≡ 2) }
    ensures there { OnTrue result (drive < 2) }
{
    disc.is_mirrored() && drive < 2
}

/// One of the two drives of the disc of this process changes, if it can change so.
fn turn_one(disc: &mut Disc, process: u8, drive: u8, change: DriveChange) -> Effect
    requires two { length disc.old ≡ 2 }
    requires there { drive < 2 }
    ensures drives { TurnsDrives (turned_by change (length (content disc.old)) drive (states_of disc.old)) process
        (states_of disc.old) result (states_of disc.new) }
    ensures sectors { content disc.new ≡ content disc.old }
{
    match change {
        DriveChange::Break => fail_one(disc, process, drive),
        DriveChange::Revive => {
            if disc.revive(drive) {
                Effect::Done
            } else {
                Effect::Skipped
            }
        }
        DriveChange::Copy => {
            if disc.copy(drive) {
                Effect::Done
            } else {
                Effect::Skipped
            }
        }
    }
}

/// One of the two drives of the disc of this process fails, unless it is the last one that has everything.
fn fail_one(disc: &mut Disc, process: u8, drive: u8) -> Effect
    requires two { length disc.old ≡ 2 }
    requires there { drive < 2 }
    ensures drives { TurnsDrives (turned_by DriveChange.Break (length (content disc.old)) drive (states_of disc.old))
        process (states_of disc.old) result (states_of disc.new) }
    ensures sectors { content disc.new ≡ content disc.old }
{
    match disc.fail(drive) {
        Failing::Done => Effect::Done,
        Failing::AlreadyFailed => Effect::Skipped,
        Failing::LastOne => Effect::WouldLoseDisc(process),
    }
}
