ghost use Rattle.std.specs.Prelude.{◌++◌};
ghost use Rattle.gd_io.specs.Puts.{Puts};
ghost use Rattle.plain_semantics.specs.SiteLimits.{KeepsSiteLimits};
ghost use Rattle.trace_print.specs.ActLine.{act_lines};
ghost use Rattle.trace_print.specs.LoadLines.{load_lines};
ghost use Rattle.trace_print.specs.MirrorLine.{mirror_lines};
ghost use Rattle.trace_print.specs.ReportText.{load_report_text, run_text};
ghost use Rattle.trace_print.specs.SectorLine.{sector_lines};
ghost use Rattle.trace_print.specs.ShownLine.{shown_lines};
ghost use Rattle.trace_print.specs.StopLine.{stop_lines};

use crate::acts::write_all_acts;
use crate::closing::{Closing, write_closing};
use crate::load::{LoadCounts, write_load};
use crate::mirrors::{MirrorDrives, write_all_mirrors};
use crate::sectors::write_all_sectors;
use crate::shown::write_all_shown;
use crate::stops::write_all_stops;
use gd_io::{Sink, WriteFault};
use shown_sectors::SectorWords;
use tal_tree::{Act, Shown, Site};

/// Writes the lines of all that a run shows, of the sectors that were written, of the drives of mirrored discs, of the
/// processors that have stopped, of the acts that are to be told, and of its end, in this order. It takes no memory.
pub fn write_report<K: Sink>(
    sink: &mut K,
    site: &Site,
    shown: &[Shown],
    sectors: &[SectorWords],
    mirrors: &[MirrorDrives],
    stopped: &[u8],
    acts: &[Act],
    closing: Closing,
) -> Result<(), WriteFault>
    requires { KeepsSiteLimits site.now }
    ensures { Puts K.held K.faults K.sure sink.old sink.new
        (run_text site.now shown.now sectors.now mirrors.now stopped.now acts.now closing) result }
{
    write_run(sink, site, shown, sectors, mirrors, stopped, acts)?;
    write_closing(sink, site, closing)
}

fn write_run<K: Sink>(
    sink: &mut K,
    site: &Site,
    shown: &[Shown],
    sectors: &[SectorWords],
    mirrors: &[MirrorDrives],
    stopped: &[u8],
    acts: &[Act],
) -> Result<(), WriteFault>
    requires { KeepsSiteLimits site.now }
    ensures { Puts K.held K.faults K.sure sink.old sink.new
        (shown_lines site.now shown.now ++ sector_lines site.now sectors.now ++ mirror_lines site.now mirrors.now
        ++ stop_lines stopped.now ++ act_lines site.now acts.now) result }
{
    write_end_states(sink, site, shown, sectors, mirrors, stopped)?;
    write_all_acts(sink, site, acts)
}

fn write_end_states<K: Sink>(
    sink: &mut K,
    site: &Site,
    shown: &[Shown],
    sectors: &[SectorWords],
    mirrors: &[MirrorDrives],
    stopped: &[u8],
) -> Result<(), WriteFault>
    ensures { Puts K.held K.faults K.sure sink.old sink.new
        (shown_lines site.now shown.now ++ sector_lines site.now sectors.now ++ mirror_lines site.now mirrors.now
        ++ stop_lines stopped.now) result }
{
    write_discs(sink, site, shown, sectors, mirrors)?;
    write_all_stops(sink, stopped)
}

fn write_discs<K: Sink>(
    sink: &mut K,
    site: &Site,
    shown: &[Shown],
    sectors: &[SectorWords],
    mirrors: &[MirrorDrives],
) -> Result<(), WriteFault>
    ensures { Puts K.held K.faults K.sure sink.old sink.new
        (shown_lines site.now shown.now ++ sector_lines site.now sectors.now ++ mirror_lines site.now mirrors.now)
        result }
{
    write_outside(sink, site, shown, sectors)?;
    write_all_mirrors(sink, site, mirrors)
}

fn write_outside<K: Sink>(
    sink: &mut K,
    site: &Site,
    shown: &[Shown],
    sectors: &[SectorWords],
) -> Result<(), WriteFault>
    ensures { Puts K.held K.faults K.sure sink.old sink.new
        (shown_lines site.now shown.now ++ sector_lines site.now sectors.now) result }
{
    write_all_shown(sink, site, shown)?;
    write_all_sectors(sink, site, sectors)
}

/// Writes the lines of a load's counts, of the sectors that were written, of the processors that have stopped, and of
/// its end, in this order. It takes no memory.
pub fn write_load_report<K: Sink>(
    sink: &mut K,
    site: &Site,
    counts: LoadCounts,
    sectors: &[SectorWords],
    stopped: &[u8],
    closing: Closing,
) -> Result<(), WriteFault>
    ensures { Puts K.held K.faults K.sure sink.old sink.new
        (load_report_text site.now counts sectors.now stopped.now closing) result }
{
    write_load_states(sink, site, counts, sectors, stopped)?;
    write_closing(sink, site, closing)
}

fn write_load_states<K: Sink>(
    sink: &mut K,
    site: &Site,
    counts: LoadCounts,
    sectors: &[SectorWords],
    stopped: &[u8],
) -> Result<(), WriteFault>
    ensures { Puts K.held K.faults K.sure sink.old sink.new
        (load_lines counts ++ sector_lines site.now sectors.now ++ stop_lines stopped.now) result }
{
    write_load_sectors(sink, site, counts, sectors)?;
    write_all_stops(sink, stopped)
}

fn write_load_sectors<K: Sink>(
    sink: &mut K,
    site: &Site,
    counts: LoadCounts,
    sectors: &[SectorWords],
) -> Result<(), WriteFault>
    ensures { Puts K.held K.faults K.sure sink.old sink.new (load_lines counts ++ sector_lines site.now sectors.now)
        result }
{
    write_load(sink, counts)?;
    write_all_sectors(sink, site, sectors)
}
