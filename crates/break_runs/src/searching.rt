//! The search.
ghost use Rattle.std.specs.Prelude.{◌≡◌, ℕ, ⊤, IfOk, None, Option, Result};
ghost use Rattle.break_progress.specs.Progress.{TellsOn, runs_of};
ghost use Rattle.player.specs.declared.stop.ProcessorStop as declared;
ghost use Rattle.schedule_runs.specs.pair_machine.specs.process_copies.specs.Starting.{IsStartable};
ghost use Rattle.schedule_runs.specs.Ends.{IsRunOfPairs};
ghost use Rattle.schedule_runs.specs.Lengths.{AsksForFewEvents};
ghost use Rattle.break_runs.specs.Breaks.{IsFound, places_of};
ghost use Rattle.break_runs.specs.Meanwhile.{IsToldSearch, sound_runs};

use crate::found::{Break, Search};
use crate::laws::a_run_does_few_acts;
use crate::stops::first_stop;
use crate::tried::wrong_of;
use break_progress::{runs_of, tell_run};
use gd_io::{Sink, WriteFault};
use gd_words::NoMemory;
use logs::Shared;
use schedule::Line;
use schedule_runs::{Ran, run};
use std::alloc::Global;
use tal_tree::Site;

/// Each processor is stopped before at most this many events.
const MOST_PLACES: u32 = 1000;

/// Looks for a stop of a processor with which a run of the schedule isn't one of unfailing processes. How far the
/// search is goes to the sink meanwhile; the search goes on if it can't be written.
pub fn search_breaks<K: Sink>(
    alloc: Global,
    site: &Shared<Site>,
    lines: &[Line],
    sink: &mut K,
) -> Result<Search, NoMemory>
    requires startable { IsStartable site.now }
    requires few { (stop : Option declared.ProcessorStop) → AsksForFewEvents site.now lines.now stop }
    ensures { IsToldSearch K.held K.faults K.sure site.now lines.now sink.old sink.new result }
{
    let ran = run(alloc, site, lines, None)?;
    let asked = ran.asked;
    let places = places_of(asked);
    let mut written = Ok(());
    let found = first_break(alloc, site, lines, places, ran, sink, &mut written)?;
    Ok(Search {
        asked,
        places,
        found,
    })
}

fn places_of(asked: u64) -> u32
    ensures { result ≡ places_of asked }
{
    if asked < u64::from(MOST_PLACES) {
        asked as u32
    } else {
        MOST_PLACES
    }
}

/// The first run that breaks, where this is the one with no stop.
fn first_break<K: Sink>(
    alloc: Global,
    site: &Shared<Site>,
    lines: &[Line],
    places: u32,
    ran: Ran,
    sink: &mut K,
    written: &mut Result<(), WriteFault>,
) -> Result<Option<Break>, NoMemory>
    requires startable { IsStartable site.now }
    requires few { (stop : Option declared.ProcessorStop) → AsksForFewEvents site.now lines.now stop }
    requires is { IsRunOfPairs site.now lines.now None ran }
    ensures { (runs : ℕ)
        × TellsOn K.held K.faults K.sure (runs_of site.now.processors places) 0 runs sink.old written.old sink.new
        written.new
        × IfOk result (λ found. IsFound site.now lines.now places found
        × (runs ≡ sound_runs site.now.processors places found)) }
{
    a_run_does_few_acts();
    if let Some(wrong) = wrong_of(alloc, site.get(), ran)? {
        return Ok(Some(Break { stop: None, wrong }));
    }
    tell_run(
        alloc,
        sink,
        written,
        runs_of(site.get().processors, places),
        0,
    )?;
    match first_stop(alloc, site, lines, places, sink, written)? {
        None => Ok(None),
        Some(found) => Ok(Some(Break {
            stop: Some(found.stop),
            wrong: found.wrong,
        })),
    }
}
