//! The stops in their order: processor after processor, each before the first events in turn.
ghost use Rattle.std.specs.Prelude.{◌≡◌, ◌+◌, ◌*◌, ℕ, IfOk, Option};
ghost use Rattle.break_progress.specs.Progress.{TellsOn, runs_of};
ghost use Rattle.player.specs.declared.stop.ProcessorStop as declared;
ghost use Rattle.schedule_runs.specs.pair_machine.specs.process_copies.specs.Starting.{IsStartable};
ghost use Rattle.schedule_runs.specs.Lengths.{AsksForFewEvents};
ghost use Rattle.break_runs.specs.Breaks.{IsFirstAmong, IsFirstOf};
ghost use Rattle.break_runs.specs.Meanwhile.{sound_among, sound_of, tried_before};

use crate::found::StopBreak;
use crate::tried::tried;
use break_progress::{runs_of, tell_run};
use gd_io::{Sink, WriteFault};
use gd_words::NoMemory;
use logs::Shared;
use player::ProcessorStop;
use schedule::Line;
use std::alloc::Global;
use tal_tree::Site;

/// The first stop with which a run breaks. It is told on the way how many are tried.
pub(crate) fn first_stop<K: Sink>(
    alloc: Global,
    site: &Shared<Site>,
    lines: &[Line],
    places: u32,
    sink: &mut K,
    written: &mut Result<(), WriteFault>,
) -> Result<Option<StopBreak>, NoMemory>
    requires startable { IsStartable site.now }
    requires few { (stop : Option declared.ProcessorStop) → AsksForFewEvents site.now lines.now stop }
    ensures { (runs : ℕ)
        × TellsOn K.held K.faults K.sure (runs_of site.now.processors places) 1 runs sink.old written.old sink.new
        written.new
        × IfOk result (λ found. IsFirstAmong site.now lines.now places found
        × (runs ≡ sound_among site.now.processors places found)) }
{
    let processors = site.get().processors;
    for processor in 0..processors {
        if let Some(found) = first_of(alloc, site, lines, places, processor, sink, written)? {
            return Ok(Some(found));
        }
    }
    Ok(None)
}

/// The first stop of one processor with which a run breaks.
fn first_of<K: Sink>(
    alloc: Global,
    site: &Shared<Site>,
    lines: &[Line],
    places: u32,
    processor: u8,
    sink: &mut K,
    written: &mut Result<(), WriteFault>,
) -> Result<Option<StopBreak>, NoMemory>
    requires startable { IsStartable site.now }
    requires few { (stop : Option declared.ProcessorStop) → AsksForFewEvents site.now lines.now stop }
    ensures { (runs : ℕ)
        × TellsOn K.held K.faults K.sure (runs_of site.now.processors places) (1 + processor * places) runs sink.old
        written.old sink.new written.new
        × IfOk result (λ found. IsFirstOf site.now lines.now places processor found
        × (runs ≡ 1 + processor * places + sound_of places found)) }
{
    let total = runs_of(site.get().processors, places);
    for after in 0..places {
        let stop = ProcessorStop { processor, after };
        if let Some(wrong) = tried(alloc, site, lines, Some(stop))? {
            return Ok(Some(StopBreak { stop, wrong }));
        }
        tell_run(alloc, sink, written, total, tried_before(places, stop))?;
    }
    Ok(None)
}

/// How many runs are tried before the one with this stop.
fn tried_before(places: u32, stop: ProcessorStop) -> u64
    ensures { result ≡ tried_before places stop }
{
    1 + u64::from(stop.processor) * u64::from(places) + u64::from(stop.after)
}
