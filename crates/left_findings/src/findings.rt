ghost use Rattle.std.specs.Prelude.{◌≡◌, ◌++◌, map, IfOk, OnOk};
ghost use Rattle.left_findings.specs.Left.{IsLeft, left_acting, left_process};
ghost use Rattle.left_findings.specs.Left.{processes_left, servers_of, stand_at, stand_awaiting, stand_checked};
ghost use Rattle.left_findings.specs.Left.{stand_at_point, stand_renewing, terminal_left};

use crate::finding::{Left, ProcessLeft, Stand, TerminalLeft};
use crate::places::line_of_copy;
use crate::servers::server_of_stand;
use gd_words::{List, NoMemory};
use machine_views::{CopyView, TerminalView, View, acting_of};
use process_semantics::Point;
use std::alloc::Global;
use tal_tree::{ProcessSpec, Site};
use wait_rings::rings;

/// What is left at the end of a run of a site, by the view of its machine.
pub fn left_of(alloc: Global, site: &Site, view: &View) -> Result<Left, NoMemory>
    ensures { IfOk result (λ left. IsLeft site.now view.now left) }
{
    let processes = processes_left(alloc, site, view.copies.as_slice())?;
    let terminals = terminals_left(alloc, view.terminals.as_slice())?;
    let servers = servers_of(alloc, processes.as_slice())?;
    let rings = rings(alloc, servers.as_slice())?;
    Ok(Left {
        processes,
        terminals,
        rings,
    })
}

/// The process whose reply each awaits, if it awaits one.
fn servers_of(alloc: Global, lefts: &[ProcessLeft]) -> Result<List<Option<usize>>, NoMemory>
    ensures { IfOk result (λ servers. servers ≡ servers_of lefts.now) }
{
    let mut servers = List::new(alloc);
    for left in lefts {
        servers.push(left.server)?;
    }
    Ok(servers)
}

fn processes_left(
    alloc: Global,
    site: &Site,
    copies: &[CopyView],
) -> Result<List<ProcessLeft>, NoMemory>
    ensures { IfOk result (λ all. all ≡ processes_left site.now copies.now 0 site.now.processes) }
{
    let mut all = List::new(alloc);
    put_processes(alloc, &mut all, site, copies, site.processes.as_slice())?;
    Ok(all)
}

fn put_processes(
    alloc: Global,
    all: &mut List<ProcessLeft>,
    site: &Site,
    copies: &[CopyView],
    specs: &[ProcessSpec],
) -> Result<(), NoMemory>
    ensures { OnOk result (all.new ≡ all.old ++ processes_left site.now copies.now 0 specs.now) }
{
    for (process, spec) in specs.iter().enumerate() {
        let left = left_process(alloc, site, copies, process, spec)?;
        all.push(left)?;
    }
    Ok(())
}

fn left_process(
    alloc: Global,
    site: &Site,
    copies: &[CopyView],
    process: usize,
    spec: &ProcessSpec,
) -> Result<ProcessLeft, NoMemory>
    ensures { IfOk result (λ left. left ≡ left_process site.now copies.now process spec.now) }
{
    match acting_of(process, copies) {
        None => Ok(ProcessLeft {
            stand: Stand::AtTakeover,
            server: None,
            line: None,
            in_hand: false,
            waiting: 0,
        }),
        Some(copy) => left_acting(alloc, site, spec, copy),
    }
}

/// What is left of a process, by its copy that acts.
fn left_acting(
    alloc: Global,
    site: &Site,
    spec: &ProcessSpec,
    copy: &CopyView,
) -> Result<ProcessLeft, NoMemory>
    ensures { IfOk result (λ left. left ≡ left_acting site.now spec.now copy.now) }
{
    let stand = stand_at(copy);
    let line = line_of_copy(alloc, &spec.what, copy)?;
    Ok(ProcessLeft {
        stand,
        server: server_of_stand(site, spec, stand),
        line,
        in_hand: copy.receive.in_hand.is_some(),
        waiting: copy.waiting.len(),
    })
}

/// Where a copy stands that acts: one that has sent a checkpoint waits until that is acknowledged.
fn stand_at(copy: &CopyView) -> Stand
    ensures { result ≡ stand_at copy.now }
{
    if copy.sent {
        Stand::AtAcknowledgement(copy.number)
    } else if copy.renewal {
        stand_renewing(copy)
    } else {
        stand_at_point(copy)
    }
}

/// Where a copy stands that has to send everything.
fn stand_renewing(copy: &CopyView) -> Stand
    ensures { result ≡ stand_renewing copy.now copy.now.point }
{
    match copy.point {
        Point::Await => stand_awaiting(copy),
        Point::Take => Stand::CanStep,
        Point::AtCheckpoint => Stand::CanStep,
        Point::Ended => Stand::CanStep,
        Point::Inner => Stand::CanStep,
        Point::Ask => Stand::CanStep,
        Point::Answer => Stand::CanStep,
        Point::Device => Stand::CanStep,
    }
}

fn stand_at_point(copy: &CopyView) -> Stand
    ensures { result ≡ stand_at_point copy.now copy.now.point }
{
    match copy.point {
        Point::Take => Stand::AtTake,
        Point::Await => stand_awaiting(copy),
        Point::AtCheckpoint => stand_checked(copy.sent, copy.number),
        Point::Ended => Stand::Ended,
        Point::Inner => Stand::CanStep,
        Point::Ask => Stand::CanStep,
        Point::Answer => Stand::CanStep,
        Point::Device => Stand::CanStep,
    }
}

fn stand_awaiting(copy: &CopyView) -> Stand
    ensures { result ≡ stand_awaiting copy.now.awaited }
{
    match copy.awaited {
        None => Stand::CanStep,
        Some(awaited) => Stand::AtAwait(awaited),
    }
}

fn stand_checked(sent: bool, number: u32) -> Stand
    ensures { result ≡ stand_checked sent number }
{
    if sent {
        Stand::AtAcknowledgement(number)
    } else {
        Stand::CanStep
    }
}

fn terminals_left(alloc: Global, terminals: &[TerminalView]) -> Result<List<TerminalLeft>, NoMemory>
    ensures { IfOk result (λ all. all ≡ map terminal_left terminals.now) }
{
    let mut all = List::new(alloc);
    for terminal in terminals {
        all.push(terminal_left(*terminal))?;
    }
    Ok(all)
}

fn terminal_left(terminal: TerminalView) -> TerminalLeft
    ensures { result ≡ terminal_left terminal }
{
    if terminal.printed < terminal.entered {
        TerminalLeft::Unanswered(terminal.printed + 1)
    } else {
        TerminalLeft::Answered(terminal.printed)
    }
}
