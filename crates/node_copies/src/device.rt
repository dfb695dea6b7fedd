ghost use Rattle.std.specs.Prelude.{◌≡◌, not};
ghost use Rattle.disc_device.specs.Sectors.{is_written, stored_after};
ghost use Rattle.kept_acts.specs.world_semantics.specs.Own.{found_on};
ghost use Rattle.disc_device.specs.mirror.specs.Mirror.{content};
ghost use Rattle.disc_device.specs.mirror.specs.States.{states_of};
ghost use Rattle.node_copies.specs.Seen.{drives_on, sectors_on};

use disc_device::Disc;
use gd_words::{DeviceCall, Sector};

/// The words that a call of a process's device finds: zeros where there is no device, or not that sector.
pub(crate) fn found_on(device: &Option<Disc>, call: &DeviceCall) -> Sector
    ensures { result ≡ found_on (sectors_on device.now) call.now }
{
    match *call {
        DeviceCall::Read(sector) => read_on(device, sector),
        _ => [0; 8],
    }
}

fn read_on(device: &Option<Disc>, sector: u8) -> Sector
    ensures { result ≡ found_on (sectors_on device.now) (DeviceCall.Read sector) }
{
    match device {
        None => [0; 8],
        Some(disc) => read_disc(disc, sector),
    }
}

fn read_disc(disc: &Disc, sector: u8) -> Sector
    ensures { result ≡ found_on (content disc.now) (DeviceCall.Read sector) }
{
    if disc.count() <= sector {
        return [0; 8];
    }
    disc.read(sector)
}

/// Writes to a process's device, and tells whether the write is new. If the sector isn't there, nothing is written, and
/// the write counts as new each time, since no number stands there.
pub(crate) fn write_on(device: &mut Option<Disc>, sector: u8, words: &Sector, number: u32) -> bool
    ensures sectors { sectors_on device.new ≡ stored_after (sectors_on device.old) sector words.now number }
    ensures new { result ≡ not (is_written (sectors_on device.old) sector number) }
    ensures drives { drives_on device.new ≡ drives_on device.old }
{
    match device {
        None => true,
        Some(disc) => write_disc(disc, sector, words, number),
    }
}

fn write_disc(disc: &mut Disc, sector: u8, words: &Sector, number: u32) -> bool
    ensures sectors { content disc.new ≡ stored_after (content disc.old) sector words.now number }
    ensures new { result ≡ not (is_written (content disc.old) sector number) }
    ensures drives { states_of disc.new ≡ states_of disc.old }
{
    if disc.count() <= sector {
        return true;
    }
    disc.write(sector, words, number)
}
