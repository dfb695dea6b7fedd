ghost use Rattle.std.specs.Prelude.{◌≡◌, ◌++◌, flat_map, OnOk};
ghost use Rattle.event_findings.specs.Watches.{line_found, miss_at, miss_between, miss_found, report_found, tick_found};
ghost use Rattle.event_findings.specs.Watches.{ticking_at, ticking_of, ticks_found};

use crate::changes::put_any;
use crate::noting::Ticking;
use alive_regroup::{Neighbour, ProcessorSet, Watch};
use gd_words::{List, NoMemory};
use machine_views::Machine;
use schedule::Event;
use trace_lines::Finding;

/// The numbers of processors.
const PROCESSORS: [u8; 16] = [0, 1, 2, 3, 4, 5, 6, 7, 8, 9, 10, 11, 12, 13, 14, 15];

/// What is noted of the node that ticks.
pub(crate) fn ticking_of(machine: &Machine, event: Event) -> Option<Ticking>
    ensures { result ≡ ticking_of machine.now.state event }
{
    match event {
        Event::Tick(node) => ticking_at(machine, node),
        Event::Run(_) => None,
        Event::Enter(_) => None,
        Event::Deliver { bus: _, k: _ } => None,
        Event::Lose { bus: _, k: _ } => None,
        Event::Repeat { bus: _, k: _ } => None,
        Event::Fail(_) => None,
        Event::Reload(_) => None,
        Event::Drive(_) => None,
    }
}

fn ticking_at(machine: &Machine, node: u8) -> Option<Ticking>
    ensures { result ≡ ticking_at machine.now.state node }
{
    let watch = machine.watch_at(node)?;
    Some(Ticking {
        node,
        watch,
        line: machine.line_after_tick(node),
    })
}

/// Puts behind the findings what a tick finds out, if one is made.
pub(crate) fn put_ticks(
    findings: &mut List<Finding>,
    ticking: Option<Ticking>,
) -> Result<(), NoMemory>
    ensures { OnOk result (findings.new ≡ findings.old ++ ticks_found ticking) }
{
    match ticking {
        None => Ok(()),
        Some(ticking) => put_tick(findings, ticking),
    }
}

fn put_tick(findings: &mut List<Finding>, ticking: Ticking) -> Result<(), NoMemory>
    ensures { OnOk result (findings.new ≡ findings.old ++ tick_found ticking) }
{
    let mut later = ticking.watch;
    let told = later.tick();
    put_misses(
        findings,
        ticking.node,
        &ticking.watch,
        &later,
        PROCESSORS.as_slice(),
    )?;
    put_any(findings, report_found(ticking.node, told))?;
    put_any(findings, line_found(ticking))
}

/// Puts which of these processors a check missed, by what the node knew before it and after it.
fn put_misses(
    findings: &mut List<Finding>,
    node: u8,
    before: &Watch,
    after: &Watch,
    processors: &[u8],
) -> Result<(), NoMemory>
    ensures { OnOk result (findings.new ≡ findings.old
        ++ flat_map (miss_at node before.now after.now) processors.now) }
{
    for processor in processors {
        put_miss(findings, node, before, after, *processor)?;
    }
    Ok(())
}

fn put_miss(
    findings: &mut List<Finding>,
    node: u8,
    before: &Watch,
    after: &Watch,
    processor: u8,
) -> Result<(), NoMemory>
    ensures { OnOk result (findings.new ≡ findings.old ++ miss_at node before.now after.now processor) }
{
    put_any(
        findings,
        miss_between(
            node,
            processor,
            before.neighbour(processor),
            after.neighbour(processor),
        ),
    )
}

fn miss_between(
    node: u8,
    processor: u8,
    before: Option<Neighbour>,
    after: Option<Neighbour>,
) -> Option<Finding>
    ensures { result ≡ miss_between node processor before after }
{
    match (before, after) {
        (Some(before), Some(after)) => miss_found(node, processor, before, after),
        (Some(_), None) => None,
        (None, _) => None,
    }
}

/// What a check made of a processor.
fn miss_found(node: u8, processor: u8, before: Neighbour, after: Neighbour) -> Option<Finding>
    ensures { result ≡ miss_found node processor before after }
{
    if after.is_silent() && !before.is_silent() {
        Some(Finding::FindsSilent { node, processor })
    } else if after.is_missed() && !before.is_missed() {
        Some(Finding::Misses { node, processor })
    } else {
        None
    }
}

fn report_found(node: u8, told: Option<ProcessorSet>) -> Option<Finding>
    ensures { result ≡ report_found node told }
{
    let silent = told?;
    Some(Finding::Reports { node, silent })
}

fn line_found(ticking: Ticking) -> Option<Finding>
    ensures { result ≡ line_found ticking }
{
    let processor = ticking.line?;
    Some(Finding::PullsLine {
        node: ticking.node,
        processor,
    })
}
