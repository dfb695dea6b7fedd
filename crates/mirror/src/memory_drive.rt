ghost use Rattle.std.specs.Prelude.{◌≡◌, ◌≤◌, replicate, IfOk};
ghost use Rattle.mirror.specs.Sectors.{blank};
ghost use Rattle.gd_words.specs.declared.limits.TheConstants.{MOST_SECTORS};

use crate::drive::Drive;
use crate::stored::Stored;
use gd_words::NoMemory;
use std::alloc::Global;
use std::marker::Model;

/// A drive in memory, of 1 to 64 sectors.
#[derive(Drop)]
pub struct MemoryDrive {
    sectors: Vec<Stored>,
}

impl Model for MemoryDrive {
    ghost use Rattle.std.specs.Prelude.{◌≤◌, length, List};
    ghost use Rattle.mirror.specs.declared.stored.Stored.{Stored};
    ghost use Rattle.gd_words.specs.declared.limits.TheConstants.{MOST_SECTORS};

    ghost Value = { List Stored };

    ghost view = { λ drive. drive.sectors.items };

    ghost invariant = { λ drive. (1 ≤ length drive.sectors.items) × (length drive.sectors.items ≤ MOST_SECTORS) };
}

impl MemoryDrive {
    /// A drive of so many sectors on which nothing was written.
    pub fn new(alloc: Global, sectors: u8) -> Result<MemoryDrive, NoMemory>
        requires some { 1 ≤ sectors }
        requires few { sectors ≤ MOST_SECTORS }
        ensures { IfOk result (λ drive. drive ≡ replicate sectors blank) }
    {
        let sectors = vec![in alloc; Stored::BLANK; usize::from(sectors)]?;
        Ok(MemoryDrive { sectors })
    }

    /// All sectors, in order.
    pub fn sectors(&self) -> &[Stored]
        ensures { result.now ≡ self.now }
    {
        self.sectors.as_slice()
    }
}

impl Drive for MemoryDrive {
    ghost sectors = { λ drive. drive };

    fn count(&self) -> u8 {
        self.sectors.len() as u8
    }

    fn get(&self, sector: u8) -> Stored {
        self.sectors[usize::from(sector)]
    }

    fn put(&mut self, sector: u8, stored: &Stored) {
        self.sectors[usize::from(sector)] = *stored;
    }

    fn wipe(&mut self) {
        self.sectors.fill(Stored::BLANK);
    }
}
