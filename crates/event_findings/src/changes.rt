ghost use Rattle.std.specs.Prelude.{◌≡◌, ◌++◌, flat_map, option_to_list, slice_get, OnOk};
ghost use Rattle.std.specs.Option.{option_map};
ghost use Rattle.event_findings.specs.Changes.{applied, changes_found, copies_found, copy_found, entered_found};
ghost use Rattle.event_findings.specs.Changes.{had_marked, has_stopped, mark_found, marks_found, own_found};
ghost use Rattle.event_findings.specs.Changes.{reload_found};
ghost use Rattle.event_findings.specs.Changes.{reloads_found, stop_found};
ghost use Rattle.event_findings.specs.Changes.{had_waiting, still_found, stops_found, takeover_of, wait_found};
ghost use Rattle.event_findings.specs.Changes.{waits_found};

use crate::sets::put_sets;
use crate::steps::{statement_of, step_found, still_of};
use gd_words::{List, NoMemory, Request};
use machine_views::{CopyView, DownView, TerminalView, View};
use schedule::Event;
use std::alloc::Global;
use tal_tree::Site;
use trace_lines::Finding;
use world_semantics::Role;

/// Puts all that an event did between two views behind the findings.
pub(crate) fn put_changes(
    alloc: Global,
    findings: &mut List<Finding>,
    site: &Site,
    event: Event,
    before: &View,
    after: &View,
) -> Result<(), NoMemory>
    ensures { OnOk result (findings.new ≡ findings.old ++ changes_found site.now event before.now after.now) }
{
    put_any(findings, own_found(site, event, before, after))?;
    put_sets(alloc, findings, site, event, before, after)?;
    put_stops(
        findings,
        before.stopped.as_slice(),
        after.stopped.as_slice(),
    )?;
    put_reloads(
        findings,
        before.stopped.as_slice(),
        after.stopped.as_slice(),
    )?;
    put_marks(findings, before.down.as_slice(), after.down.as_slice())?;
    put_copies(
        findings,
        site,
        before.copies.as_slice(),
        after.copies.as_slice(),
    )?;
    put_waits(findings, before.copies.as_slice(), after.copies.as_slice())
}

/// Puts a finding behind others, if there is one.
pub(crate) fn put_any(
    findings: &mut List<Finding>,
    finding: Option<Finding>,
) -> Result<(), NoMemory>
    ensures { OnOk result (findings.new ≡ findings.old ++ option_to_list finding) }
{
    match finding {
        None => Ok(()),
        Some(finding) => {
            findings.push(finding)?;
            Ok(())
        }
    }
}

/// The step of the process that runs, or the request that a terminal enters.
fn own_found(site: &Site, event: Event, before: &View, after: &View) -> Option<Finding>
    ensures { result ≡ own_found site.now event before.now after.now }
{
    match event {
        Event::Run(process) => step_found(
            site,
            process,
            before.copies.as_slice(),
            after.copies.as_slice(),
        ),
        Event::Enter(terminal) => entered_in(after.terminals.as_slice(), terminal),
        Event::Deliver { bus: _, k: _ } => None,
        Event::Lose { bus: _, k: _ } => None,
        Event::Repeat { bus: _, k: _ } => None,
        Event::Tick(_) => None,
        Event::Fail(_) => None,
        Event::Reload(_) => None,
        Event::Drive(_) => None,
    }
}

/// Where the process stands still that was to run.
pub(crate) fn still_found(event: Event, view: &View) -> Option<Finding>
    ensures { result ≡ still_found event view.now }
{
    match event {
        Event::Run(process) => still_of(process, view.copies.as_slice()),
        Event::Enter(_) => None,
        Event::Deliver { bus: _, k: _ } => None,
        Event::Lose { bus: _, k: _ } => None,
        Event::Repeat { bus: _, k: _ } => None,
        Event::Tick(_) => None,
        Event::Fail(_) => None,
        Event::Reload(_) => None,
        Event::Drive(_) => None,
    }
}

fn entered_in(terminals: &[TerminalView], terminal: u8) -> Option<Finding>
    ensures { result ≡ option_map entered_found (slice_get terminals.now terminal) }
{
    match terminals.get(usize::from(terminal)) {
        None => None,
        Some(view) => Some(Finding::Enters(view.entered)),
    }
}

/// Puts the processors behind the findings that had stopped and run now.
fn put_reloads(findings: &mut List<Finding>, before: &[u8], after: &[u8]) -> Result<(), NoMemory>
    ensures { OnOk result (findings.new ≡ findings.old ++ reloads_found before.now after.now) }
{
    for processor in before {
        put_reload(findings, after, *processor)?;
    }
    Ok(())
}

fn put_reload(findings: &mut List<Finding>, after: &[u8], processor: u8) -> Result<(), NoMemory>
    ensures { OnOk result (findings.new ≡ findings.old ++ reload_found after.now processor) }
{
    if !has_stopped(after, processor) {
        findings.push(Finding::Reloads(processor))?;
    }
    Ok(())
}

/// Puts the processors behind the findings that have stopped and hadn't before.
fn put_stops(findings: &mut List<Finding>, before: &[u8], after: &[u8]) -> Result<(), NoMemory>
    ensures { OnOk result (findings.new ≡ findings.old ++ stops_found before.now after.now) }
{
    for processor in after {
        put_stop(findings, before, *processor)?;
    }
    Ok(())
}

fn put_stop(findings: &mut List<Finding>, before: &[u8], processor: u8) -> Result<(), NoMemory>
    ensures { OnOk result (findings.new ≡ findings.old ++ stop_found before.now processor) }
{
    if !has_stopped(before, processor) {
        findings.push(Finding::Stops(processor))?;
    }
    Ok(())
}

fn has_stopped(before: &[u8], processor: u8) -> bool
    ensures { result ≡ has_stopped before.now processor }
{
    before.iter().any(|one| *one == processor)
}

/// Puts the marks behind the findings that stand and didn't before.
fn put_marks(
    findings: &mut List<Finding>,
    before: &[DownView],
    after: &[DownView],
) -> Result<(), NoMemory>
    ensures { OnOk result (findings.new ≡ findings.old ++ marks_found before.now after.now) }
{
    for mark in after {
        put_mark(findings, before, *mark)?;
    }
    Ok(())
}

fn put_mark(
    findings: &mut List<Finding>,
    before: &[DownView],
    mark: DownView,
) -> Result<(), NoMemory>
    ensures { OnOk result (findings.new ≡ findings.old ++ mark_found before.now mark) }
{
    if !had_marked(before, mark) {
        findings.push(Finding::Marks {
            node: mark.node,
            processor: mark.down,
        })?;
    }
    Ok(())
}

fn had_marked(before: &[DownView], mark: DownView) -> bool
    ensures { result ≡ had_marked before.now mark }
{
    before
        .iter()
        .any(|one| one.node == mark.node && one.down == mark.down)
}

/// Puts behind the findings what copies did that watched.
fn put_copies(
    findings: &mut List<Finding>,
    site: &Site,
    before: &[CopyView],
    after: &[CopyView],
) -> Result<(), NoMemory>
    ensures { OnOk result (findings.new ≡ findings.old ++ copies_found site.now before.now after.now) }
{
    let mut before_left = before;
    let mut after_left = after;
    while let Some((copy, later)) = before_left.split_first() {
        let Some((now, rest)) = after_left.split_first() else {
            return Ok(());
        };
        put_any(findings, copy_found(site, copy, now))?;
        before_left = later;
        after_left = rest;
    }
    Ok(())
}

/// What a copy did that watched or was blank.
fn copy_found(site: &Site, before: &CopyView, after: &CopyView) -> Option<Finding>
    ensures { result ≡ copy_found site.now before.now after.now }
{
    match (before.role, after.role) {
        (Role::Watching, Role::Acting) => Some(takeover_of(site, after)),
        (Role::Watching, Role::Watching) => applied(before, after),
        (Role::Watching, Role::Blank) => None,
        (Role::Watching, Role::Gone) => None,
        (Role::Blank, Role::Watching) => applied(before, after),
        (Role::Blank, Role::Blank) => None,
        (Role::Blank, Role::Acting) => None,
        (Role::Blank, Role::Gone) => None,
        (Role::Acting, _) => None,
        (Role::Gone, _) => None,
    }
}

fn takeover_of(site: &Site, after: &CopyView) -> Finding
    ensures { result ≡ takeover_of site.now after.now }
{
    Finding::TakesOver {
        process: after.process,
        processor: after.processor,
        era: after.era,
        statement: statement_of(site, after),
    }
}

/// A copy that watches has the number of the last checkpoint that it put in, and so has one that was blank.
fn applied(before: &CopyView, after: &CopyView) -> Option<Finding>
    ensures { result ≡ applied before.now after.now }
{
    if before.number < after.number {
        Some(Finding::AppliesCheckpoint {
            process: after.process,
            processor: after.processor,
            number: after.number,
        })
    } else {
        None
    }
}

/// Puts the requests behind the findings that wait and didn't before.
fn put_waits(
    findings: &mut List<Finding>,
    before: &[CopyView],
    after: &[CopyView],
) -> Result<(), NoMemory>
    ensures { OnOk result (findings.new ≡ findings.old ++ waits_found before.now after.now) }
{
    let mut before_left = before;
    let mut after_left = after;
    while let Some((copy, later)) = before_left.split_first() {
        let Some((now, rest)) = after_left.split_first() else {
            return Ok(());
        };
        put_waits_of(
            findings,
            now,
            copy.waiting.as_slice(),
            now.waiting.as_slice(),
        )?;
        before_left = later;
        after_left = rest;
    }
    Ok(())
}

fn put_waits_of(
    findings: &mut List<Finding>,
    copy: &CopyView,
    before: &[Request],
    after: &[Request],
) -> Result<(), NoMemory>
    ensures { OnOk result (findings.new ≡ findings.old ++ flat_map (wait_found copy.now before.now) after.now) }
{
    for request in after {
        put_wait(findings, copy, before, request)?;
    }
    Ok(())
}

fn put_wait(
    findings: &mut List<Finding>,
    copy: &CopyView,
    before: &[Request],
    request: &Request,
) -> Result<(), NoMemory>
    ensures { OnOk result (findings.new ≡ findings.old ++ wait_found copy.now before.now request.now) }
{
    if !had_waiting(before, request) {
        findings.push(Finding::Waits {
            process: copy.process,
            processor: copy.processor,
            number: request.number,
        })?;
    }
    Ok(())
}

fn had_waiting(before: &[Request], request: &Request) -> bool
    ensures { result ≡ had_waiting before.now request.now }
{
    before.iter().any(|one| one.opener == request.opener && one.number == request.number)
}
