ghost use Rattle.std.specs.Prelude.{◌≡◌, IfOk};
ghost use Rattle.pair_machine.specs.process_copies.specs.Starting.{IsStartable};
ghost use Rattle.schedule_runs.specs.Ends.{IsRunOfPairs};
ghost use Rattle.schedule_runs.specs.Lengths.{AsksForFewEvents};
ghost use Rattle.schedule_runs.specs.Runs.{sizes_of};

use crate::pairs::PlayedPairs;
use crate::ran::Ran;
use gd_words::NoMemory;
use logs::Shared;
use player::{ProcessorStop, Sizes};
use schedule::Line;
use std::alloc::Global;
use tal_tree::Site;

/// Plays a schedule on a site, with a stop of a processor where one is given.
pub fn run(
    alloc: Global,
    site: &Shared<Site>,
    lines: &[Line],
    stop: Option<ProcessorStop>,
) -> Result<Ran, NoMemory>
    requires startable { IsStartable site.now }
    requires few { AsksForFewEvents site.now lines.now stop }
    ensures { IfOk result (λ ran. IsRunOfPairs site.now lines.now stop ran) }
{
    let pairs = PlayedPairs::boot(alloc, site)?;
    let ran = schedule_loop::run(pairs, sizes_of(site.get()), lines, stop)?;
    Ok(Ran {
        machine: ran.machine.machine,
        asked: ran.asked,
        ending: ran.ending,
    })
}

/// How many processors, processes and terminals a site has.
fn sizes_of(site: &Site) -> Sizes
    requires { IsStartable site.now }
    ensures { result ≡ sizes_of site.now }
{
    Sizes {
        processors: site.processors,
        processes: site.processes.len() as u8,
        terminals: site.terminals.len() as u8,
    }
}
