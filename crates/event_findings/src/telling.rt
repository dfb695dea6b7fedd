ghost use Rattle.std.specs.Prelude.{◌≡◌, ◌++◌, IfOk, OnOk};
ghost use Rattle.machine_views.specs.Views.{view_of};
ghost use Rattle.event_findings.specs.Told.{changed_of, changes_since, found, seen_of, shown_after, still_noted};

use crate::acts::{put_held, put_kept};
use crate::changes::{put_any, put_changes, still_found};
use crate::drives::drive_found;
use crate::handed_over::handed_since;
use crate::noting::Noted;
use crate::sends::put_sends;
use crate::watches::put_ticks;
use gd_words::{List, NoMemory};
use machine_states::Effect;
use machine_views::{Machine, View, view};
use schedule::Event;
use std::alloc::Global;
use tal_tree::{Shown, Site};
use trace_lines::Finding;

/// What an event did that has this answer, by what was noted before it and the machine after it.
pub fn findings(
    alloc: Global,
    site: &Site,
    noted: &Noted,
    event: Event,
    effect: Effect,
    machine: &Machine,
) -> Result<List<Finding>, NoMemory>
    ensures { IfOk result (λ findings. findings ≡ found site.now noted.now event effect machine.now.state) }
{
    let mut findings = List::new(alloc);
    match effect {
        Effect::Skipped => {
            findings.push(Finding::Skipped)?;
            put_any(&mut findings, still_noted(event, &noted.view))?;
        }
        Effect::WouldStopSecond(processor) => findings.push(Finding::WouldStopSecond(processor))?,
        Effect::WouldLoseDisc(process) => findings.push(Finding::WouldLoseDisc(process))?,
        Effect::Done => put_done(alloc, &mut findings, site, noted, event, machine)?,
    }
    Ok(findings)
}

/// Where the process stands still that was to run.
fn still_noted(event: Event, view: &Option<View>) -> Option<Finding>
    ensures { result ≡ still_noted event view.now }
{
    match view {
        None => None,
        Some(view) => still_found(event, view),
    }
}

/// Puts behind the findings what an event shows of itself, and what has changed with it.
fn put_done(
    alloc: Global,
    findings: &mut List<Finding>,
    site: &Site,
    noted: &Noted,
    event: Event,
    machine: &Machine,
) -> Result<(), NoMemory>
    ensures { OnOk result (findings.new ≡ findings.old ++ (seen_of noted.now event machine.now.state
        ++ changed_of site.now noted.now event machine.now.state)) }
{
    put_seen(findings, noted, event, machine)?;
    put_changed(alloc, findings, site, noted, event, machine)
}

/// Puts what became of the packet that an event named, how its drive stands, what its tick found out, and what is told
/// of the message that it handed over.
fn put_seen(
    findings: &mut List<Finding>,
    noted: &Noted,
    event: Event,
    machine: &Machine,
) -> Result<(), NoMemory>
    ensures { OnOk result (findings.new ≡ findings.old ++ seen_of noted.now event machine.now.state) }
{
    put_any(findings, noted.packet)?;
    put_any(findings, drive_found(event, machine))?;
    put_ticks(findings, noted.ticking)?;
    put_any(findings, handed_since(noted.handed, &noted.view))
}

/// Puts what the views show to have changed, what was sent, and which acts are kept and held back.
fn put_changed(
    alloc: Global,
    findings: &mut List<Finding>,
    site: &Site,
    noted: &Noted,
    event: Event,
    machine: &Machine,
) -> Result<(), NoMemory>
    ensures { OnOk result (findings.new ≡ findings.old ++ changed_of site.now noted.now event machine.now.state) }
{
    put_changes_since(alloc, findings, site, event, &noted.view, machine)?;
    put_sends(findings, machine, noted.queued.as_slice())?;
    put_kept(findings, machine, noted.acts)?;
    put_held(findings, machine, noted.holding)
}

fn put_changes_since(
    alloc: Global,
    findings: &mut List<Finding>,
    site: &Site,
    event: Event,
    before: &Option<View>,
    machine: &Machine,
) -> Result<(), NoMemory>
    ensures { OnOk result (findings.new ≡ findings.old
        ++ changes_since site.now event before.now (view_of machine.now.state.world)) }
{
    match before {
        None => Ok(()),
        Some(before) => {
            let after = view(alloc, machine)?;
            put_changes(alloc, findings, site, event, before, &after)
        }
    }
}

/// What was shown since the machine was noted, in order.
pub fn shown_since<'a>(noted: &Noted, machine: &'a Machine) -> &'a [Shown]
    ensures { result.now ≡ shown_after noted.now machine.now.state }
{
    let shown = machine.shown();
    if shown.len() < noted.shown {
        return &[];
    }
    let (_, since) = shown.split_at(noted.shown);
    since
}
