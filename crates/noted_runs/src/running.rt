ghost use Rattle.std.specs.Prelude.{◌≡◌, None, replicate, IfOk};
ghost use Rattle.noted_rules.specs.packet_runs.specs.Runs.{course_on, packet_rules};
ghost use Rattle.noted_rules.specs.packet_runs.specs.process_copies.specs.Starting.{IsStartable};
ghost use Rattle.noted_rules.specs.packet_runs.specs.site_machine.specs.Needs.{IsReady};
ghost use Rattle.schedule_loop.specs.Ends.{CanBePlayed};
ghost use Rattle.noted_runs.specs.Runs.{IsRunWithSteps};

use crate::noted::NotedPackets;
use gd_words::{List, NoMemory};
use logs::Shared;
use noted_rules::{PlayedPackets, Ran, sizes_of};
use player::ProcessorStop;
use program_ends::LastStep;
use schedule::Line;
use std::alloc::Global;
use tal_tree::Site;

/// A run that was made, and of each process the step with which it ended, if it has.
#[derive(Drop)]
pub struct NotedRan {
    pub ran: Ran,
    pub steps: List<Option<LastStep>>,
}

/// Plays a schedule on a site, with a stop of a processor where one is given, and notes with which steps its processes
/// ended.
pub fn run(
    alloc: Global,
    site: &Shared<Site>,
    lines: &[Line],
    stop: Option<ProcessorStop>,
) -> Result<NotedRan, NoMemory>
    requires startable { IsStartable site.now }
    requires can { CanBePlayed packet_rules IsReady (course_on site.now lines.now stop) }
    ensures { IfOk result (λ ran. IsRunWithSteps site.now lines.now stop ran) }
{
    let packets = PlayedPackets::boot(alloc, site)?;
    let site = site.get();
    let steps = none_ended(alloc, site.processes.len())?;
    let noted = NotedPackets {
        alloc,
        packets,
        site,
        steps,
    };
    let ran = schedule_loop::run(noted, sizes_of(site), lines, stop)?;
    let NotedPackets {
        alloc: _,
        packets,
        site: _,
        steps,
    } = ran.machine;
    Ok(NotedRan {
        ran: Ran {
            machine: packets.machine,
            asked: ran.asked,
            ending: ran.ending,
        },
        steps,
    })
}

/// So many processes, none of which has ended.
fn none_ended(alloc: Global, count: usize) -> Result<List<Option<LastStep>>, NoMemory>
    ensures { IfOk result (λ steps. steps ≡ replicate count None) }
{
    let mut steps = List::new(alloc);
    for _ in 0..count {
        steps.push(None)?;
    }
    Ok(steps)
}
