ghost use Rattle.std.specs.Prelude.{◌≡◌, ◌++◌, IfOk, OnOk};
ghost use Rattle.site_machine.specs.world_copies.specs.Seen.{pairs_in};
ghost use Rattle.machine_views.specs.Seen.{AreNumbered};
ghost use Rattle.machine_views.specs.Views.{each_at, sector_views};

use crate::views::SectorView;
use gd_words::{List, NoMemory};
use site_machine::ProcessCopies;
use std::alloc::Global;

/// The sectors of all discs.
pub(crate) fn sectors(
    alloc: Global,
    processes: &[ProcessCopies],
) -> Result<List<SectorView>, NoMemory>
    requires { AreNumbered processes.now }
    ensures { IfOk result (λ views. views ≡ each_at sector_views 0 (pairs_in processes.now)) }
{
    let mut views = List::new(alloc);
    for process in processes {
        add_sectors(process, &mut views)?;
    }
    Ok(views)
}

/// The sectors of a process are added to `views`.
fn add_sectors(process: &ProcessCopies, views: &mut List<SectorView>) -> Result<(), NoMemory>
    ensures { OnOk result (views.new ≡ views.old ++ sector_views process.now.number process.now.pair) }
{
    let number = process.number();
    let sectors = process.sectors();
    for sector in 0..process.sector_count() {
        let stored = &sectors[usize::from(sector)];
        views.push(SectorView {
            process: number,
            sector,
            words: stored.words,
            number: stored.number,
        })?;
    }
    Ok(())
}
