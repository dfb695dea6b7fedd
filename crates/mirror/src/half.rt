ghost use Rattle.std.specs.Prelude.{◌≡◌, ◌<◌, length};
ghost use Rattle.mirror.specs.Mirror.{after_copy, after_fail, after_revive, after_write};

use crate::drive::Drive;
use crate::state::DriveState;
use crate::stored::Stored;
use std::marker::Model;

/// One of the drives of a device, with how it stands.
#[derive(Drop)]
pub struct Half<D: Drive> {
    drive: D,
    state: DriveState,
}

impl<D: Drive> Model for Half<D> {
    ghost use Rattle.mirror.specs.Mirror.{DriveHeld};

    ghost Value = { DriveHeld };

    ghost view = { λ half. record { state = half.state; sectors = D.sectors half.drive } };
}

impl<D: Drive> Half<D> {
    /// A drive that works.
    pub fn working(drive: D) -> Half<D>
        ensures state { result.state ≡ DriveState.Working }
        ensures sectors { result.sectors ≡ D.sectors drive }
    {
        Half {
            drive,
            state: DriveState::Working,
        }
    }

    pub fn state(&self) -> DriveState
        ensures { result ≡ self.now.state }
    {
        self.state
    }

    pub fn drive(&self) -> &D
        ensures { D.sectors result.now ≡ self.now.sectors }
    {
        &self.drive
    }

    /// Writes on it where it works, or is revived and its next sector is a later one.
    pub fn write(&mut self, sector: u8, stored: &Stored)
        requires { sector < length self.old.sectors }
        ensures { self.new ≡ after_write sector stored.now self.old }
    {
        match self.state {
            DriveState::Working => self.drive.put(sector, stored),
            DriveState::Failed => {}
            DriveState::Reviving(next) => {
                if sector < next {
                    self.drive.put(sector, stored);
                }
            }
        }
    }

    /// It fails: nothing is left on it.
    pub fn fail(&mut self)
        ensures { self.new ≡ after_fail self.old }
    {
        self.drive.wipe();
        self.state = DriveState::Failed;
    }

    /// A new drive in its place, of which no sector was copied yet.
    pub fn revive(&mut self)
        ensures { self.new ≡ after_revive self.old }
    {
        self.drive.wipe();
        self.state = DriveState::Reviving(0);
    }

    /// Its next sector is copied; after the last one it works.
    pub fn copy(&mut self, next: u8, stored: &Stored)
        requires { next < length self.old.sectors }
        ensures { self.new ≡ after_copy next stored.now self.old }
    {
        let count = self.drive.count();
        self.drive.put(next, stored);
        let after = next + 1;
        self.state = if after == count {
            DriveState::Working
        } else {
            DriveState::Reviving(after)
        };
    }
}
