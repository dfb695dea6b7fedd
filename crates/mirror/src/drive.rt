ghost use Rattle.std.specs.Prelude.{◌≡◌, ◌<◌, List, length, replicate, slice_get, slice_set, Some};
ghost use Rattle.mirror.specs.Sectors.{blank};
ghost use Rattle.mirror.specs.declared.stored.Stored.{Stored};

use crate::stored::Stored;

/// A drive: sectors, each with the number of the write that put its words. No call takes memory.
pub trait Drive: Drop {
    ghost sectors: { Self → List Stored };

    /// How many sectors there are, which no call changes.
    fn count(&self) -> u8
        ensures { result ≡ length (sectors self.now) };

    /// What is on a sector.
    fn get(&self, sector: u8) -> Stored
        requires { sector < length (sectors self.now) }
        ensures { slice_get (sectors self.now) sector ≡ Some result };

    /// Puts this on a sector.
    fn put(&mut self, sector: u8, stored: &Stored)
        requires { sector < length (sectors self.old) }
        ensures { sectors self.new ≡ slice_set (sectors self.old) sector stored.now };

    /// Clears each sector.
    fn wipe(&mut self)
        ensures { sectors self.new ≡ replicate (length (sectors self.old)) blank };
}
