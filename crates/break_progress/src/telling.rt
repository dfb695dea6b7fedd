ghost use Rattle.std.specs.Prelude.{◌≡◌, ◌+◌, ◌<◌, ℕ, OnOk};
ghost use Rattle.break_progress.specs.Progress.{TellsOn, is_hundredth, runs_of};

use crate::line::tried_line;
use gd_io::{Sink, WriteFault, put_all};
use gd_words::NoMemory;
use std::alloc::Global;

/// How many runs are tried in all: the one with no stop, and for each processor one for each place.
pub fn runs_of(processors: u8, places: u32) -> u64
    ensures { result ≡ runs_of processors places }
{
    1 + u64::from(processors) * u64::from(places)
}

/// Tells, if one run more than these makes whole hundreds, that so many are tried. Where a line before it wasn't
/// written whole, nothing more is written.
pub fn tell_run<K: Sink>(
    alloc: Global,
    sink: &mut K,
    written: &mut Result<(), WriteFault>,
    total: u64,
    before: u64,
) -> Result<(), NoMemory>
    requires { before < 18446744073709551615 }
    ensures { (runs : ℕ)
        × TellsOn K.held K.faults K.sure total before runs sink.old written.old sink.new written.new
        × OnOk result (runs ≡ before + 1) }
{
    let runs = before + 1;
    if !is_hundredth(runs) {
        return Ok(());
    }
    match *written {
        Err(_) => Ok(()),
        Ok(()) => {
            let line = tried_line(alloc, total, runs)?;
            *written = put_all(sink, line.as_slice());
            Ok(())
        }
    }
}

fn is_hundredth(runs: u64) -> bool
    ensures { result ≡ is_hundredth runs }
{
    runs % 100 == 0
}
