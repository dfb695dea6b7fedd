ghost use Rattle.std.specs.Prelude.{◌≡◌, ◌++◌, map, IfOk, OnOk};
ghost use Rattle.std.specs.Option.{option_copied};
ghost use Rattle.chart_drawing.specs.Standings as spec;
ghost use Rattle.chart_drawing.specs.Standings.{after_all, after_one, copies_by, copy_bar, is_at};

use crate::layout::Layout;
use gd_words::{List, NoMemory};
use std::alloc::Global;
use svg_text::{Look, Shape, Spot};
use tal_tree::{ProcessSpec, Site};
use trace_lines::Finding;

/// The copy of a process in a processor: whether it acts or watches, and whether it is gone with its processor.
#[derive(Clone, Copy, PartialEq, Eq, Drop)]
pub struct Standing {
    pub process: u8,
    pub processor: u8,
    pub acts: bool,
    pub gone: bool,
}

/// The copies of a site's processes at the beginning.
pub(crate) fn standings_at_boot(
    alloc: Global,
    layout: Layout,
    site: &Site,
) -> Result<List<Standing>, NoMemory>
    ensures { IfOk result (λ standings. standings ≡ spec.standings_at_boot layout site.now) }
{
    let mut standings = List::new(alloc);
    for process in 0..layout.processes {
        put_copies(
            &mut standings,
            process,
            site.processes.get(usize::from(process)),
        )?;
    }
    Ok(standings)
}

/// Puts both copies of a process behind the others, where it is there.
fn put_copies(
    standings: &mut List<Standing>,
    process: u8,
    spec: Option<&ProcessSpec>,
) -> Result<(), NoMemory>
    ensures { OnOk result (standings.new ≡ standings.old ++ copies_by process (option_copied spec.entry)) }
{
    match spec {
        None => Ok(()),
        Some(spec) => {
            standings.push(copy_at_boot(process, spec.primary, true))?;
            standings.push(copy_at_boot(process, spec.backup, false))
        }
    }
}

fn copy_at_boot(process: u8, processor: u8, acts: bool) -> Standing
    ensures { result ≡ spec.copy_at_boot process processor acts }
{
    Standing {
        process,
        processor,
        acts,
        gone: false,
    }
}

/// The copies after an event that did this.
pub(crate) fn standings_after(
    alloc: Global,
    findings: &[Finding],
    standings: &[Standing],
) -> Result<List<Standing>, NoMemory>
    ensures { IfOk result (λ after. after ≡ map (after_all findings.now) standings.now) }
{
    let mut after = List::new(alloc);
    for standing in standings {
        after.push(after_all(findings, *standing))?;
    }
    Ok(after)
}

/// A copy after all that an event did.
fn after_all(findings: &[Finding], standing: Standing) -> Standing
    ensures { result ≡ after_all findings.now standing }
{
    let mut left = findings;
    let mut now = standing;
    while let Some((finding, rest)) = left.split_first() {
        now = after_one(*finding, now);
        left = rest;
    }
    now
}

fn after_one(finding: Finding, standing: Standing) -> Standing
    ensures { result ≡ after_one finding standing }
{
    match finding {
        Finding::TakesOver {
            process,
            processor,
            era: _,
            statement: _,
        } => taken_over(process, processor, standing),
        Finding::Stops(processor) => stopped(processor, standing),
        Finding::Reloads(processor) => loaded(processor, standing),
        Finding::Skipped => standing,
        Finding::StandsStill(_) => standing,
        Finding::WouldStopSecond(_) => standing,
        Finding::WouldLoseDisc(_) => standing,
        Finding::Packet {
            packet: _,
            fate: _,
            message: _,
        } => standing,
        Finding::Sends {
            sender: _,
            receiver: _,
            last: _,
            message: _,
            again: _,
        } => standing,
        Finding::Makes {
            process: _,
            statement: _,
        } => standing,
        Finding::Sets {
            process: _,
            item: _,
            place: _,
            value: _,
        } => standing,
        Finding::DiscGoesOn(_) => standing,
        Finding::SendsCheckpoint(_) => standing,
        Finding::PassesCheckpoint => standing,
        Finding::SendsEverything(_) => standing,
        Finding::EndsSending => standing,
        Finding::AppliesCheckpoint {
            process: _,
            processor: _,
            number: _,
        } => standing,
        Finding::Waits {
            process: _,
            processor: _,
            number: _,
        } => standing,
        Finding::Marks {
            node: _,
            processor: _,
        } => standing,
        Finding::Misses {
            node: _,
            processor: _,
        } => standing,
        Finding::FindsSilent {
            node: _,
            processor: _,
        } => standing,
        Finding::Reports { node: _, silent: _ } => standing,
        Finding::PullsLine {
            node: _,
            processor: _,
        } => standing,
        Finding::IgnoresCheckpoint {
            process: _,
            processor: _,
            number: _,
            why: _,
        } => standing,
        Finding::HearsTaken {
            process: _,
            processor: _,
            number: _,
        } => standing,
        Finding::Keeps(_) => standing,
        Finding::HoldsBack(_) => standing,
        Finding::Enters(_) => standing,
        Finding::Drive(_) => standing,
    }
}

fn taken_over(process: u8, processor: u8, standing: Standing) -> Standing
    ensures { result ≡ spec.taken_over process processor standing }
{
    Standing {
        acts: standing.acts || is_at(process, processor, standing),
        ..standing
    }
}

/// Whether this is the copy of a process in a processor.
fn is_at(process: u8, processor: u8, standing: Standing) -> bool
    ensures { result ≡ is_at process processor standing }
{
    standing.process == process && standing.processor == processor
}

fn stopped(processor: u8, standing: Standing) -> Standing
    ensures { result ≡ spec.stopped processor standing }
{
    Standing {
        gone: standing.gone || standing.processor == processor,
        ..standing
    }
}

fn loaded(processor: u8, standing: Standing) -> Standing
    ensures { result ≡ spec.loaded processor standing }
{
    if standing.processor == processor {
        Standing {
            acts: false,
            gone: false,
            ..standing
        }
    } else {
        standing
    }
}

/// The processor of the copy that acts for a process, if one does.
pub(crate) fn acting_in(process: u8, standings: &[Standing]) -> Option<u8>
    ensures { result ≡ spec.acting_in process standings.now }
{
    let mut left = standings;
    while let Some((standing, rest)) = left.split_first() {
        if acts_for(process, *standing) {
            return Some(standing.processor);
        }
        left = rest;
    }
    None
}

fn acts_for(process: u8, standing: Standing) -> bool
    ensures { result ≡ spec.acts_for process standing }
{
    standing.process == process && standing.acts && !standing.gone
}

/// Puts what each copy is beside an event behind the shapes.
pub(crate) fn put_bars(
    shapes: &mut List<Shape>,
    layout: Layout,
    number: u64,
    standings: &[Standing],
) -> Result<(), NoMemory>
    ensures { OnOk result (shapes.new ≡ shapes.old ++ map (copy_bar layout number) standings.now) }
{
    for standing in standings {
        shapes.push(copy_bar(layout, number, *standing))?;
    }
    Ok(())
}

fn copy_bar(layout: Layout, number: u64, standing: Standing) -> Shape
    ensures { result ≡ copy_bar layout number standing }
{
    let at = layout.copy_spot(standing.process, standing.processor, number);
    if standing.gone {
        bar_round(Look::Gone, at, 2, 2)
    } else if standing.acts {
        bar_round(Look::Acting, at, 8, 14)
    } else {
        bar_round(Look::Watching, at, 4, 14)
    }
}

/// A bar with its middle in a place.
pub(crate) fn bar_round(look: Look, at: Spot, width: u32, height: u32) -> Shape
    ensures { result ≡ spec.bar_round look at width height }
{
    Shape::Bar {
        look,
        at: Spot {
            x: at.x.saturating_sub(width / 2),
            y: at.y.saturating_sub(height / 2),
        },
        width,
        height,
    }
}
