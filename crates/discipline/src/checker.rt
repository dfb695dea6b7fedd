ghost use Rattle.std.specs.Prelude.{◌≡◌, ◌+◌, ◌*◌, ◌≤◌, length, OnOk};
ghost use Rattle.tal_tree.specs.Limits.{IsWithinLimits};
ghost use Rattle.tal_tree.specs.Ordered.{IsOrdered};
ghost use Rattle.tal_tree.specs.Regular.{IsRegular};
ghost use Rattle.path_semantics.specs.declared.reason.Reason.TheVariants.{Data, SyncBlock, Input, Depth};
ghost use Rattle.path_semantics.specs.Bounds.{IsWithinBounds};
ghost use Rattle.due_search.specs.flow_paths.specs.Flow.{IsFlow};
ghost use Rattle.due_search.specs.reason_dues.specs.Sets.{IsNear};
ghost use Rattle.discipline.specs.Suspects.{IsKnown, HaveNodes, AreSuspects};
ghost use Rattle.due_search.specs.Search.{IsClear};
ghost use Rattle.discipline.specs.Verdict.{NoneBefore, IsVerdict, IsTried, AreTriedBefore};
ghost use Rattle.gd_words.specs.declared.limits.TheConstants.{MOST_DEPTH};

use crate::suspects::suspects;
use due_search::{Aim, Flow, FlowFault, Reasons, Search, most_of};
use gd_words::NoMemory;
use path_semantics::{Reason, RefusalFault};
use std::alloc::Global;
use tal_tree::Program;

/// The verdict on a program: whether it keeps the checkpoint discipline, or the first cause for which it doesn't. Among
/// causes too deep calls come first, then too many statements, then globals as they are declared, files as they are
/// opened, input, and the files' depths.
pub fn check(alloc: Global, program: &Program) -> Result<(), RefusalFault>
    requires ordered { IsOrdered program.now }
    requires limits { IsWithinLimits program.now }
    requires regular { IsRegular program.now }
    ensures { IsVerdict program.now result }
{
    match Flow::of(alloc, program) {
        Ok(flow) => check_reasons(alloc, program, &flow),
        Err(FlowFault::TooDeep) => Err(RefusalFault::TooDeep),
        Err(FlowFault::TooLarge(size)) => Err(RefusalFault::TooLarge(size)),
        Err(FlowFault::NoMemory(memory)) => Err(RefusalFault::NoMemory(memory)),
    }
}

/// Whether the program of a graph keeps the discipline.
fn check_reasons(alloc: Global, program: &Program, flow: &Flow<'_>) -> Result<(), RefusalFault>
    requires ordered { IsOrdered program.now }
    requires limits { IsWithinLimits program.now }
    requires regular { IsRegular program.now }
    requires bounds { IsWithinBounds program.now }
    requires flow { IsFlow program.now flow.now }
    ensures { IsVerdict program.now result }
{
    let mut search = match Search::new(alloc, flow.len()) {
        Ok(search) => search,
        Err(memory) => return Err(RefusalFault::NoMemory(memory)),
    };
    let suspects = match suspects(alloc, flow) {
        Ok(suspects) => suspects,
        Err(memory) => return Err(RefusalFault::NoMemory(memory)),
    };
    try_items(alloc, program, flow, suspects, &mut search)?;
    try_files(alloc, program, flow, suspects, &mut search)?;
    try_reason(alloc, program, flow, suspects, &mut search, Reason::Input)?;
    try_depths(alloc, program, flow, suspects, &mut search)
}

/// Tries the globals, as they are declared.
fn try_items(
    alloc: Global,
    program: &Program,
    flow: &Flow<'_>,
    suspects: Reasons,
    search: &mut Search,
) -> Result<(), RefusalFault>
    requires ordered { IsOrdered program.now }
    requires limits { IsWithinLimits program.now }
    requires regular { IsRegular program.now }
    requires bounds { IsWithinBounds program.now }
    requires flow { IsFlow program.now flow.now }
    requires suspects { AreSuspects flow.now suspects }
    requires nodes { HaveNodes flow.now suspects }
    requires clear { IsClear search.old.seen.items }
    requires room { length search.old.seen.items ≡ length flow.now * (MOST_DEPTH + 1) }
    ensures tried { AreTriedBefore program.now (SyncBlock 0) result }
    ensures clear { OnOk result (IsClear search.new.seen.items) }
    ensures room { length search.new.seen.items ≡ length search.old.seen.items }
{
    for item in 0..program.items.len() as u16 {
        try_reason(alloc, program, flow, suspects, search, Reason::Data(item))?;
    }
    Ok(())
}

/// Tries the files, as they are opened.
fn try_files(
    alloc: Global,
    program: &Program,
    flow: &Flow<'_>,
    suspects: Reasons,
    search: &mut Search,
) -> Result<(), RefusalFault>
    requires ordered { IsOrdered program.now }
    requires limits { IsWithinLimits program.now }
    requires regular { IsRegular program.now }
    requires bounds { IsWithinBounds program.now }
    requires flow { IsFlow program.now flow.now }
    requires suspects { AreSuspects flow.now suspects }
    requires nodes { HaveNodes flow.now suspects }
    requires before { NoneBefore program.now (SyncBlock 0) }
    requires clear { IsClear search.old.seen.items }
    requires room { length search.old.seen.items ≡ length flow.now * (MOST_DEPTH + 1) }
    ensures tried { AreTriedBefore program.now Input result }
    ensures clear { OnOk result (IsClear search.new.seen.items) }
    ensures room { length search.new.seen.items ≡ length search.old.seen.items }
{
    for file in 0..program.files.len() as u8 {
        try_reason(
            alloc,
            program,
            flow,
            suspects,
            search,
            Reason::SyncBlock(file),
        )?;
    }
    Ok(())
}

/// Tries the depths of the files, as they are opened.
fn try_depths(
    alloc: Global,
    program: &Program,
    flow: &Flow<'_>,
    suspects: Reasons,
    search: &mut Search,
) -> Result<(), RefusalFault>
    requires ordered { IsOrdered program.now }
    requires limits { IsWithinLimits program.now }
    requires bounds { IsWithinBounds program.now }
    requires flow { IsFlow program.now flow.now }
    requires suspects { AreSuspects flow.now suspects }
    requires nodes { HaveNodes flow.now suspects }
    requires before { NoneBefore program.now (Depth 0) }
    requires clear { IsClear search.old.seen.items }
    requires room { length search.old.seen.items ≡ length flow.now * (MOST_DEPTH + 1) }
    ensures { IsVerdict program.now result }
{
    for file in 0..program.files.len() as u8 {
        try_reason(alloc, program, flow, suspects, search, Reason::Depth(file))?;
    }
    Ok(())
}

/// Tries a reason: searches for a shortest path that breaks for it, if it is among those for which any may.
fn try_reason(
    alloc: Global,
    program: &Program,
    flow: &Flow<'_>,
    suspects: Reasons,
    search: &mut Search,
    reason: Reason,
) -> Result<(), RefusalFault>
    requires ordered { IsOrdered program.now }
    requires limits { IsWithinLimits program.now }
    requires bounds { IsWithinBounds program.now }
    requires flow { IsFlow program.now flow.now }
    requires suspects { AreSuspects flow.now suspects }
    requires nodes { HaveNodes flow.now suspects }
    requires known { IsKnown program.now reason }
    requires near { IsNear reason }
    requires before { NoneBefore program.now reason }
    requires clear { IsClear search.old.seen.items }
    requires room { length search.old.seen.items ≡ length flow.now * (MOST_DEPTH + 1) }
    ensures tried { IsTried program.now reason result }
    ensures clear { OnOk result (IsClear search.new.seen.items) }
    ensures room { length search.new.seen.items ≡ length search.old.seen.items }
{
    if !suspects.has(reason) {
        return Ok(());
    }
    let most = most_of(program, reason);
    let aim = Aim {
        reason,
        most,
        ends: true,
    };
    match search.run(alloc, flow, aim) {
        Ok(None) => Ok(()),
        Ok(Some(path)) => Err(RefusalFault::Broken { reason, path }),
        Err(memory) => Err(RefusalFault::NoMemory(memory)),
    }
}
