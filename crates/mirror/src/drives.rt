ghost use Rattle.std.specs.Prelude.{◌≡◌, ◌≤◌, ◌<◌, ◌↔◌, All, length, map, not, slice_get, Some, IfSome, IsTrue};
ghost use Rattle.std.specs.Option.{option_map};
ghost use Rattle.mirror.specs.Mirror.{IsMirror, after_write, all_working, content, drives_after_copy, drives_of};
ghost use Rattle.mirror.specs.Mirror.{drives_after_fail, outcome_of_failing};
ghost use Rattle.mirror.specs.Mirror.{is_failed, is_reviving, drives_after_revive, sectors_of, state_of};
ghost use Rattle.mirror.specs.Mirror.{drives_after_write};
ghost use Rattle.mirror.specs.Sectors.{blanks, is_written, stored_after};
ghost use Rattle.gd_words.specs.declared.limits.TheConstants.{MOST_SECTORS};

use crate::drive::Drive;
use crate::half::Half;
use crate::state::{DriveState, Failing};
use crate::stored::Stored;
use gd_words::Sector;
use std::marker::Model;

/// A device of one or two drives that hold one content. No call takes memory.
#[derive(Drop)]
pub struct Drives<D: Drive> {
    first: Half<D>,
    second: Option<Half<D>>,
}

impl<D: Drive> Model for Drives<D> {
    ghost use Rattle.std.specs.Prelude.{List};
    ghost use Rattle.mirror.specs.Mirror.{DriveHeld, IsMirror, drives_of};

    ghost Value = { List DriveHeld };

    ghost view = { λ drives. drives_of drives.first drives.second };

    ghost invariant = { λ drives. IsMirror (drives_of drives.first drives.second) };
}

impl<D: Drive> Drives<D> {
    /// A device on whose drives nothing was written; they have as many sectors, 1 to 64.
    pub fn new(first: D, second: Option<D>) -> Drives<D>
        requires some { 1 ≤ length (D.sectors first) }
        requires few { length (D.sectors first) ≤ MOST_SECTORS }
        requires first { D.sectors first ≡ blanks (length (D.sectors first)) }
        requires second { IfSome second (λ drive. D.sectors drive ≡ D.sectors first) }
        ensures drives { result ≡ all_working (D.sectors first) (option_map D.sectors second) }
        ensures content { content result ≡ blanks (length (D.sectors first)) }
    {
        let second = match second {
            None => None,
            Some(drive) => Some(Half::working(drive)),
        };
        Drives {
            first: Half::working(first),
            second,
        }
    }

    /// How many sectors there are.
    pub fn count(&self) -> u8
        ensures value { result ≡ length (content self.now) }
        ensures some { 1 ≤ result }
        ensures few { result ≤ MOST_SECTORS }
    {
        self.working().count()
    }

    /// Whether there are two drives.
    pub fn is_mirrored(&self) -> bool
        ensures { IsTrue result ↔ (length self.now ≡ 2) }
    {
        self.second.is_some()
    }

    /// The first drive that works, from which the device reads.
    pub fn working(&self) -> &D
        ensures sectors { D.sectors result.now ≡ content self.now }
        ensures mirror { IsMirror self.now }
    {
        if self.first.state() == DriveState::Working {
            return self.first.drive();
        }
        match &self.second {
            None => unreachable!(),
            Some(second) => second.drive(),
        }
    }

    /// The drive at a place, with how it stands.
    fn half(&self, drive: u8) -> &Half<D>
        requires { drive < length self.now }
        ensures half { slice_get self.now drive ≡ Some result.now }
        ensures mirror { IsMirror self.now }
    {
        match &self.second {
            Some(second) if drive == 1 => second,
            _ => &self.first,
        }
    }

    /// How a drive stands.
    pub fn state(&self, drive: u8) -> DriveState
        requires { drive < length self.now }
        ensures state { result ≡ state_of self.now drive }
        ensures mirror { IsMirror self.now }
    {
        self.half(drive).state()
    }

    /// How the drive at a place stands; one that isn't there has failed.
    pub fn standing(&self, drive: u8) -> DriveState
        ensures { result ≡ state_of self.now drive }
    {
        match drive {
            0 => self.first.state(),
            1 => match &self.second {
                None => DriveState::Failed,
                Some(second) => second.state(),
            },
            _ => DriveState::Failed,
        }
    }

    /// A drive.
    pub fn drive(&self, drive: u8) -> &D
        requires { drive < length self.now }
        ensures sectors { D.sectors result.now ≡ sectors_of self.now drive }
        ensures mirror { IsMirror self.now }
    {
        self.half(drive).drive()
    }

    /// The words on a sector.
    pub fn read(&self, sector: u8) -> Sector
        requires { sector < length (content self.now) }
        ensures { option_map (λ stored. stored.words) (slice_get (content self.now) sector) ≡ Some result }
    {
        self.working().get(sector).words
    }

    /// The number of the write that put the words on a sector.
    pub fn number(&self, sector: u8) -> u32
        requires { sector < length (content self.now) }
        ensures { option_map (λ stored. stored.number) (slice_get (content self.now) sector) ≡ Some result }
    {
        self.working().get(sector).number
    }

    /// Writes a sector under a number on each drive that works, and on one that is revived if its next
    /// sector is a later one. It tells whether this is a new write: one whose number stands there was done already.
    pub fn write(&mut self, sector: u8, words: &Sector, number: u32) -> bool
        requires { sector < length (content self.old) }
        ensures drives { self.new ≡ drives_after_write self.old sector words.now number }
        ensures content { content self.new ≡ stored_after (content self.old) sector words.now number }
        ensures new { result ≡ not (is_written (content self.old) sector number) }
    {
        if self.number(sector) == number {
            return false;
        }
        let stored = Stored {
            words: *words,
            number,
        };
        write_all(&mut self.first, &mut self.second, sector, &stored);
        true
    }

    /// A drive fails and is wiped, unless it had failed before or no other one works.
    pub fn fail(&mut self, drive: u8) -> Failing
        requires two { length self.old ≡ 2 }
        requires there { drive < 2 }
        ensures told { result ≡ outcome_of_failing self.old drive }
        ensures drives { self.new ≡ drives_after_fail result drive self.old }
        ensures content { content self.new ≡ content self.old }
    {
        if self.state(drive) == DriveState::Failed {
            return Failing::AlreadyFailed;
        }
        if self.state(1 - drive) != DriveState::Working {
            return Failing::LastOne;
        }
        if drive == 0 {
            self.first.fail();
        } else if let Some(second) = &mut self.second {
            second.fail();
        }
        Failing::Done
    }

    /// A new drive is put in the place of one that failed, and tells whether it had. It is filled by `copy`.
    pub fn revive(&mut self, drive: u8) -> bool
        requires two { length self.old ≡ 2 }
        requires there { drive < 2 }
        ensures told { result ≡ is_failed (state_of self.old drive) }
        ensures drives { self.new ≡ drives_after_revive drive self.old }
        ensures content { content self.new ≡ content self.old }
    {
        if self.state(drive) != DriveState::Failed {
            return false;
        }
        if drive == 0 {
            self.first.revive();
        } else if let Some(second) = &mut self.second {
            second.revive();
        }
        true
    }

    /// Copies the next sector of a drive that is revived, and tells whether it is. After the last one it works.
    pub fn copy(&mut self, drive: u8) -> bool
        requires two { length self.old ≡ 2 }
        requires there { drive < 2 }
        ensures told { result ≡ is_reviving (state_of self.old drive) }
        ensures drives { self.new ≡ drives_after_copy drive self.old }
        ensures content { content self.new ≡ content self.old }
        ensures mirror { IsMirror self.old }
    {
        let DriveState::Reviving(next) = self.state(drive) else {
            return false;
        };
        let stored = self.working().get(next);
        if drive == 0 {
            self.first.copy(next, &stored);
        } else if let Some(second) = &mut self.second {
            second.copy(next, &stored);
        }
        true
    }
}

/// Writes on the drives of a device.
fn write_all<D: Drive>(
    first: &mut Half<D>,
    second: &mut Option<Half<D>>,
    sector: u8,
    stored: &Stored,
)
    requires { All (λ held. sector < length held.sectors) (drives_of first.old second.old) }
    ensures { drives_of first.new second.new ≡ map (after_write sector stored.now) (drives_of first.old second.old) }
{
    first.write(sector, stored);
    if let Some(second) = second {
        second.write(sector, stored);
    }
}
