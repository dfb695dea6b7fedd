ghost use Rattle.std.specs.Prelude.{◌≡◌, ◌++◌, map, slice_get, IfOk, OnOk};
ghost use Rattle.std.specs.Option.{option_copied};
ghost use Rattle.global_changes.specs.Changes.{words_set};
ghost use Rattle.event_findings.specs.Sets.{set_by, sets_between, sets_by, sets_found, sets_in};

use gd_words::{List, NoMemory};
use global_changes::{WordSet, words_set};
use machine_views::{CopyView, View, acting_of};
use schedule::Event;
use std::alloc::Global;
use tal_tree::{Kind, ProcessSpec, Program, Site};
use trace_lines::Finding;

/// Puts behind the findings what the process set that runs.
pub(crate) fn put_sets(
    alloc: Global,
    findings: &mut List<Finding>,
    site: &Site,
    event: Event,
    before: &View,
    after: &View,
) -> Result<(), NoMemory>
    ensures { OnOk result (findings.new ≡ findings.old ++ sets_found site.now event before.now after.now) }
{
    match event {
        Event::Run(process) => put_sets_by(
            alloc,
            findings,
            site,
            process,
            before.copies.as_slice(),
            after.copies.as_slice(),
        ),
        Event::Enter(_) => Ok(()),
        Event::Deliver { bus: _, k: _ } => Ok(()),
        Event::Lose { bus: _, k: _ } => Ok(()),
        Event::Repeat { bus: _, k: _ } => Ok(()),
        Event::Tick(_) => Ok(()),
        Event::Fail(_) => Ok(()),
        Event::Reload(_) => Ok(()),
        Event::Drive(_) => Ok(()),
    }
}

fn put_sets_by(
    alloc: Global,
    findings: &mut List<Finding>,
    site: &Site,
    process: u8,
    before: &[CopyView],
    after: &[CopyView],
) -> Result<(), NoMemory>
    ensures { OnOk result (findings.new ≡ findings.old
        ++ sets_by process (slice_get site.now.processes process) before.now after.now) }
{
    match site.processes.get(usize::from(process)) {
        None => Ok(()),
        Some(spec) => put_sets_between(
            alloc,
            findings,
            process,
            &spec.what,
            acting_of(usize::from(process), before),
            acting_of(usize::from(process), after),
        ),
    }
}

fn put_sets_between(
    alloc: Global,
    findings: &mut List<Finding>,
    process: u8,
    what: &Kind,
    before: Option<&CopyView>,
    after: Option<&CopyView>,
) -> Result<(), NoMemory>
    ensures { OnOk result (findings.new ≡ findings.old
        ++ sets_between process what.now (option_copied before.entry) (option_copied after.entry)) }
{
    match (before, after) {
        (Some(before), Some(after)) => put_sets_in(alloc, findings, process, what, before, after),
        (Some(_), None) => Ok(()),
        (None, _) => Ok(()),
    }
}

fn put_sets_in(
    alloc: Global,
    findings: &mut List<Finding>,
    process: u8,
    what: &Kind,
    before: &CopyView,
    after: &CopyView,
) -> Result<(), NoMemory>
    ensures { OnOk result (findings.new ≡ findings.old ++ sets_in process what.now before.now after.now) }
{
    match what {
        Kind::Disc { .. } => Ok(()),
        Kind::Pair(program) => {
            let sets = sets_of(alloc, program, before, after)?;
            put_all_sets(findings, process, sets.as_slice())
        }
    }
}

fn sets_of(
    alloc: Global,
    program: &Program,
    before: &CopyView,
    after: &CopyView,
) -> Result<List<WordSet>, NoMemory>
    ensures { IfOk result (λ sets. sets ≡ words_set program.now before.now.state after.now.state) }
{
    words_set(
        alloc,
        program,
        before.state.as_slice(),
        after.state.as_slice(),
    )
}

fn put_all_sets(findings: &mut List<Finding>, process: u8, sets: &[WordSet]) -> Result<(), NoMemory>
    ensures { OnOk result (findings.new ≡ findings.old ++ map (set_by process) sets.now) }
{
    for set in sets {
        findings.push(Finding::Sets {
            process,
            item: set.item,
            place: set.place,
            value: set.value,
        })?;
    }
    Ok(())
}
