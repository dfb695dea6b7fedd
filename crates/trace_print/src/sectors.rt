ghost use Rattle.std.specs.Prelude.{◌≡◌};
ghost use Rattle.gd_io.specs.Puts.{Puts};
ghost use Rattle.trace_print.specs.SectorLine.{sector_line, sector_lines};

use crate::line::Line;
use crate::shown::{process_name, told};
use gd_io::{Sink, WriteFault, put_all};
use shown_sectors::SectorWords;
use tal_tree::Site;

/// Writes the line of a sector that was written. It takes no memory.
pub fn write_sector<K: Sink>(
    sink: &mut K,
    site: &Site,
    written: &SectorWords,
) -> Result<(), WriteFault>
    ensures { Puts K.held K.faults K.sure sink.old sink.new (sector_line site.now written.now) result }
{
    let line = sector_text(site, written);
    put_all(sink, line.bytes())
}

/// Writes the lines of sectors, in order. It takes no memory.
pub fn write_all_sectors<K: Sink>(
    sink: &mut K,
    site: &Site,
    sectors: &[SectorWords],
) -> Result<(), WriteFault>
    ensures { Puts K.held K.faults K.sure sink.old sink.new (sector_lines site.now sectors.now) result }
{
    for written in sectors {
        write_sector(sink, site, written)?;
    }
    Ok(())
}

fn sector_text(site: &Site, written: &SectorWords) -> Line
    ensures { result ≡ sector_line site.now written.now }
{
    told(
        b"D ",
        process_name(site, written.process),
        u32::from(written.sector),
        &written.words,
    )
}
