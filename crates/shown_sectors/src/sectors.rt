ghost use Rattle.std.specs.Prelude.{◌≡◌, ◌≤◌, length, IfOk};
ghost use Rattle.gd_words.specs.declared.limits.TheConstants.{MOST_PROCESSES};
ghost use Rattle.shown_sectors.specs.Sectors.{sectors_after};

use crate::table::Table;
use gd_words::{List, NoMemory, Sector};
use std::alloc::Global;
use tal_tree::{Shown, Site};

/// A sector of the disc at a place in the deck, and the words that stand on it.
#[derive(Drop)]
pub struct SectorWords {
    pub process: u8,
    pub sector: u8,
    pub words: Sector,
}

/// The sectors that writes among what is shown name, each with the words of its last write.
pub fn sectors_after(
    alloc: Global,
    site: &Site,
    shown: &[Shown],
) -> Result<List<SectorWords>, NoMemory>
    requires { length site.now.processes ≤ MOST_PROCESSES }
    ensures { IfOk result (λ sectors. sectors ≡ sectors_after site.now shown.now) }
{
    let mut table = Table::blank(alloc, site.processes.as_slice())?;
    table.put_all(shown);
    table.sectors(alloc)
}
