ghost use Rattle.std.specs.Prelude.{◌≡◌, ◌++◌, drop, map, OnOk};
ghost use Rattle.std.specs.Option.{option_copied, option_map};
ghost use Rattle.machine_views.specs.Views.{acting_in};
ghost use Rattle.world_semantics.specs.Shares.{share_of};
ghost use Rattle.event_findings.specs.Acts.{act_named, held_beyond, held_since, holding_at, holding_of};
ghost use Rattle.event_findings.specs.Acts.{holds_back, keeps, kept_since, share_at};

use crate::noting::Holding;
use gd_words::{List, NoMemory};
use machine_views::{CopyShare, Machine, ProcessCopies, is_acting};
use schedule::Event;
use tal_tree::Act;
use trace_lines::{ActName, Finding};
use world_semantics::Which;

/// How many acts the copy holds that runs.
pub(crate) fn holding_of(machine: &Machine, event: Event) -> Option<Holding>
    ensures { result ≡ holding_of machine.now.state.world event }
{
    match event {
        Event::Run(process) => holding_at(machine, process),
        Event::Enter(_) => None,
        Event::Deliver { bus: _, k: _ } => None,
        Event::Lose { bus: _, k: _ } => None,
        Event::Repeat { bus: _, k: _ } => None,
        Event::Tick(_) => None,
        Event::Fail(_) => None,
        Event::Reload(_) => None,
        Event::Drive(_) => None,
    }
}

fn holding_at(machine: &Machine, process: u8) -> Option<Holding>
    ensures { result ≡ holding_at machine.now.state.world process }
{
    let share = share_at(machine, process)?;
    Some(Holding {
        process,
        held: share.held().len(),
    })
}

/// The share of the kept acts that the copy has which acts for a process.
fn share_at(machine: &Machine, process: u8) -> Option<&CopyShare>
    ensures { option_copied result ≡ share_at machine.now.state.world process }
{
    share_in(machine.processes().get(usize::from(process))?)
}

fn share_in(process: &ProcessCopies) -> Option<&CopyShare>
    ensures { option_copied result ≡ option_map share_of (acting_in process.now.pair) }
{
    if is_acting(process.role(Which::First)) {
        return Some(process.copy(Which::First).share());
    }
    if is_acting(process.role(Which::Second)) {
        return Some(process.copy(Which::Second).share());
    }
    None
}

/// Puts the acts behind the findings that are kept since there were so many.
pub(crate) fn put_kept(
    findings: &mut List<Finding>,
    machine: &Machine,
    count: usize,
) -> Result<(), NoMemory>
    ensures { OnOk result (findings.new ≡ findings.old ++ kept_since machine.now.state count) }
{
    put_keeps(findings, machine, behind(machine.acts(), count))
}

/// What stands behind so many acts.
fn behind(acts: &[Act], count: usize) -> &[Act]
    ensures { result.now ≡ drop count acts.now }
{
    if acts.len() < count {
        return &[];
    }
    let (_, behind) = acts.split_at(count);
    behind
}

fn put_keeps(findings: &mut List<Finding>, machine: &Machine, acts: &[Act]) -> Result<(), NoMemory>
    ensures { OnOk result (findings.new ≡ findings.old ++ map (keeps machine.now.state.site) acts.now) }
{
    for act in acts {
        findings.push(Finding::Keeps(act_named(machine, *act)))?;
    }
    Ok(())
}

/// Puts the acts behind the findings that a copy holds since it held so many.
pub(crate) fn put_held(
    findings: &mut List<Finding>,
    machine: &Machine,
    holding: Option<Holding>,
) -> Result<(), NoMemory>
    ensures { OnOk result (findings.new ≡ findings.old ++ held_since machine.now.state holding) }
{
    match holding {
        None => Ok(()),
        Some(holding) => put_beyond(
            findings,
            machine,
            holding.held,
            share_at(machine, holding.process),
        ),
    }
}

fn put_beyond(
    findings: &mut List<Finding>,
    machine: &Machine,
    count: usize,
    share: Option<&CopyShare>,
) -> Result<(), NoMemory>
    ensures { OnOk result (findings.new ≡ findings.old
        ++ held_beyond machine.now.state.site count (option_copied share.entry)) }
{
    match share {
        None => Ok(()),
        Some(share) => put_holds(findings, machine, behind(share.held(), count)),
    }
}

fn put_holds(findings: &mut List<Finding>, machine: &Machine, acts: &[Act]) -> Result<(), NoMemory>
    ensures { OnOk result (findings.new ≡ findings.old ++ map (holds_back machine.now.state.site) acts.now) }
{
    for act in acts {
        findings.push(Finding::HoldsBack(act_named(machine, *act)))?;
    }
    Ok(())
}

fn act_named(machine: &Machine, act: Act) -> ActName
    ensures { result ≡ act_named machine.now.state.site act }
{
    match act {
        Act::Step(process) => ActName::Step(process),
        Act::Take { process, opener } => ActName::Take {
            process,
            asker: machine.opener_at(process, opener),
        },
        Act::Enter(terminal) => ActName::Enter(terminal),
        Act::Print(terminal) => ActName::Print(terminal),
    }
}
