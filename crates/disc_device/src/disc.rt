ghost use Rattle.std.specs.Prelude.{◌≡◌, ◌≤◌, ◌<◌, ◌↔◌, length, not, slice_get, None, Some, IfOk, IsTrue};
ghost use Rattle.std.specs.Option.{option_map};
ghost use Rattle.mirror.specs.Mirror.{all_working, content, drives_after_copy, drives_after_fail, outcome_of_failing};
ghost use Rattle.mirror.specs.Mirror.{is_failed, is_reviving};
ghost use Rattle.mirror.specs.Mirror.{drives_after_revive, state_of, drives_after_write};
ghost use Rattle.mirror.specs.Sectors.{blanks, is_written, stored_after};
ghost use Rattle.mirror.specs.States.{failing_of, drive_state_at, states_copied, states_failed, states_of};
ghost use Rattle.mirror.specs.States.{states_revived};
ghost use Rattle.mirror.specs.gd_words.specs.declared.limits.TheConstants.{MOST_SECTORS};

use mirror::{DriveState, Drives, Failing, MemoryDrive, NoMemory, Sector, Stored};
use std::alloc::Global;
use std::marker::Model;

/// The sectors of a disc, 1 to 64, on the one drive or the two that it has.
#[derive(Drop)]
pub struct Disc {
    drives: Drives<MemoryDrive>,
}

impl Model for Disc {
    ghost use Rattle.std.specs.Prelude.{List};
    ghost use Rattle.mirror.specs.Mirror.{DriveHeld};

    ghost Value = { List DriveHeld };

    ghost view = { λ disc. disc.drives };
}

impl Disc {
    /// A disc of so many sectors on which nothing was written, with one drive.
    pub fn new(alloc: Global, sectors: u8) -> Result<Disc, NoMemory>
        requires some { 1 ≤ sectors }
        requires few { sectors ≤ MOST_SECTORS }
        ensures { IfOk result (λ disc. disc ≡ all_working (blanks sectors) None) }
    {
        let first = MemoryDrive::new(alloc, sectors)?;
        Ok(Disc {
            drives: Drives::new(first, None),
        })
    }

    /// A disc of so many sectors on which nothing was written, with two drives.
    pub fn mirrored(alloc: Global, sectors: u8) -> Result<Disc, NoMemory>
        requires some { 1 ≤ sectors }
        requires few { sectors ≤ MOST_SECTORS }
        ensures { IfOk result (λ disc. disc ≡ all_working (blanks sectors) (Some (blanks sectors))) }
    {
        let first = MemoryDrive::new(alloc, sectors)?;
        let second = MemoryDrive::new(alloc, sectors)?;
        Ok(Disc {
            drives: Drives::new(first, Some(second)),
        })
    }

    /// How many sectors there are.
    pub fn count(&self) -> u8
        ensures value { result ≡ length (content self.now) }
        ensures some { 1 ≤ result }
        ensures few { result ≤ MOST_SECTORS }
    {
        self.drives.count()
    }

    /// All sectors, in order.
    pub fn sectors(&self) -> &[Stored]
        ensures { result.now ≡ content self.now }
    {
        self.drives.working().sectors()
    }

    /// Its drives.
    pub fn drives(&self) -> &Drives<MemoryDrive>
        ensures { result.now ≡ self.now }
    {
        &self.drives
    }

    /// How the drive at a place stands; one that isn't there has failed.
    pub fn standing(&self, drive: u8) -> DriveState
        ensures { result ≡ drive_state_at (states_of self.now) drive }
    {
        self.drives.standing(drive)
    }

    /// The words on a sector.
    pub fn read(&self, sector: u8) -> Sector
        requires { sector < length (content self.now) }
        ensures { option_map (λ stored. stored.words) (slice_get (content self.now) sector) ≡ Some result }
    {
        self.drives.read(sector)
    }

    /// The number of the write that put the words on a sector.
    pub fn number(&self, sector: u8) -> u32
        requires { sector < length (content self.now) }
        ensures { option_map (λ stored. stored.number) (slice_get (content self.now) sector) ≡ Some result }
    {
        self.drives.number(sector)
    }

    /// Writes a sector under a number, and tells whether this is a new write: one whose number stands there was done
    /// already.
    pub fn write(&mut self, sector: u8, words: &Sector, number: u32) -> bool
        requires { sector < length (content self.old) }
        ensures drives { self.new ≡ drives_after_write self.old sector words.now number }
        ensures states { states_of self.new ≡ states_of self.old }
        ensures sectors { content self.new ≡ stored_after (content self.old) sector words.now number }
        ensures new { result ≡ not (is_written (content self.old) sector number) }
    {
        self.drives.write(sector, words, number)
    }

    /// A drive fails and is wiped, unless it had failed before or no other one works.
    pub fn fail(&mut self, drive: u8) -> Failing
        requires two { length self.old ≡ 2 }
        requires there { drive < 2 }
        ensures told { result ≡ outcome_of_failing self.old drive }
        ensures told_by { result ≡ failing_of (states_of self.old) drive }
        ensures drives { self.new ≡ drives_after_fail result drive self.old }
        ensures states { states_of self.new ≡ states_failed result drive (states_of self.old) }
        ensures sectors { content self.new ≡ content self.old }
    {
        self.drives.fail(drive)
    }

    /// A new drive is put in the place of one that failed, and tells whether it had. It is filled by `copy`.
    pub fn revive(&mut self, drive: u8) -> bool
        requires two { length self.old ≡ 2 }
        requires there { drive < 2 }
        ensures told { result ≡ is_failed (state_of self.old drive) }
        ensures told_by { result ≡ is_failed (drive_state_at (states_of self.old) drive) }
        ensures drives { self.new ≡ drives_after_revive drive self.old }
        ensures states { states_of self.new ≡ states_revived drive (states_of self.old) }
        ensures sectors { content self.new ≡ content self.old }
    {
        self.drives.revive(drive)
    }

    /// The next sector is copied on a drive that is revived, and tells whether it is; after the last one it works.
    pub fn copy(&mut self, drive: u8) -> bool
        requires two { length self.old ≡ 2 }
        requires there { drive < 2 }
        ensures told { result ≡ is_reviving (state_of self.old drive) }
        ensures told_by { result ≡ is_reviving (drive_state_at (states_of self.old) drive) }
        ensures drives { self.new ≡ drives_after_copy drive self.old }
        ensures states { states_of self.new
            ≡ states_copied (length (content self.old)) drive (states_of self.old) }
        ensures sectors { content self.new ≡ content self.old }
    {
        self.drives.copy(drive)
    }

    /// Whether it has two drives.
    pub fn is_mirrored(&self) -> bool
        ensures { IsTrue result ↔ (length self.now ≡ 2) }
    {
        self.drives.is_mirrored()
    }
}
