//! One run, with a stop or without.
ghost use Rattle.std.specs.Prelude.{◌≡◌, ◌<◌, IfOk, length};
ghost use Rattle.unfailing_judge.specs.plain_machine.specs.Standing.{IsPlayable};
ghost use Rattle.schedule_runs.specs.pair_machine.specs.process_copies.specs.Starting.{IsStartable};
ghost use Rattle.schedule_runs.specs.Lengths.{AsksForFewEvents};
ghost use Rattle.world_semantics.specs.Shares.{closed};
ghost use Rattle.break_runs.specs.Breaks.{IsRunJudged, IsTriedAs, is_idle_end};

use crate::laws::a_run_does_few_acts;
use gd_words::NoMemory;
use logs::Shared;
use player::ProcessorStop;
use schedule::Line;
use schedule_runs::{Ending, Ran, run};
use std::alloc::Global;
use tal_tree::Site;
use unfailing_judge::{Wrong, wrong_in};

/// What goes wrong in a run with this stop, if anything does.
pub(crate) fn tried(
    alloc: Global,
    site: &Shared<Site>,
    lines: &[Line],
    stop: Option<ProcessorStop>,
) -> Result<Option<Wrong>, NoMemory>
    requires startable { IsStartable site.now }
    requires few { AsksForFewEvents site.now lines.now stop }
    ensures { IfOk result (IsTriedAs site.now lines.now stop) }
{
    a_run_does_few_acts();
    let ran = run(alloc, site, lines, stop)?;
    let found = wrong_of(alloc, site.get(), ran)?;
    Ok(found)
}

/// What goes wrong in what a run does and shows.
pub(crate) fn wrong_of(alloc: Global, site: &Site, ran: Ran) -> Result<Option<Wrong>, NoMemory>
    requires playable { IsPlayable site.now }
    requires few { length (closed ran.machine.state.world) < 4294967295 }
    ensures { IfOk result (IsRunJudged site.now ran) }
{
    let idle = is_idle_end(ran.ending);
    let mut machine = ran.machine;
    machine.close()?;
    let found = wrong_in(alloc, site, machine.acts(), machine.shown(), idle)?;
    Ok(found)
}

fn is_idle_end(ending: Ending) -> bool
    ensures { result ≡ is_idle_end ending }
{
    match ending {
        Ending::Idle => true,
        Ending::Cut => false,
        Ending::Second(_) => false,
        Ending::Lost(_) => false,
    }
}
