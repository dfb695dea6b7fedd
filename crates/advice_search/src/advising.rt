ghost use Rattle.std.specs.Prelude.{◌≡◌, ◌<◌, ◌*◌, ◌+◌, length, IfOk, OnOk};
ghost use Rattle.tal_tree.specs.Limits.{IsWithinLimits};
ghost use Rattle.tal_tree.specs.Ordered.{IsOrdered};
ghost use Rattle.tal_tree.specs.Regular.{IsRegular};
ghost use Rattle.path_semantics.specs.Bounds.{IsWithinBounds};
ghost use Rattle.advice.specs.flow_paths.specs.Flow.{IsFlow};
ghost use Rattle.advice.specs.due_search.specs.Ends.{AreNumbered};
ghost use Rattle.advice.specs.due_search.specs.Search.{IsClear};
ghost use Rattle.advice.specs.Answer.{IsAdvised};
ghost use Rattle.advice.specs.Due.{IsItemDue, IsFileDue};
ghost use Rattle.advice_search.specs.Gathered.{AreDue};
ghost use Rattle.advice_search.specs.Advising.{IsInputTried, NoneDeepBefore, IsDepthFound, AreDepthsFound};
ghost use Rattle.gd_words.specs.declared.limits.TheConstants.{MOST_DEPTH, MOST_STATEMENTS};

use crate::deepest::deepest;
use crate::due_sets::DueSets;
use crate::lists::lists_of;
use advice::{Advice, AdviseFault, Aim, Flow, FlowFault, Search};
use gd_words::limits::MOST_DEPTH;
use gd_words::{List, NoMemory};
use path_semantics::Reason;
use std::alloc::Global;
use tal_tree::Program;

/// The advice for a program: for each CHECKPOINT the globals and files that it has to name, and for each file how many
/// replies have to be kept; or why no lists and depths mend the program. Among causes too deep calls come first, then
/// too many statements, then input, and the files as they are opened.
pub fn advise(alloc: Global, program: &Program) -> Result<Advice, AdviseFault>
    requires ordered { IsOrdered program.now }
    requires limits { IsWithinLimits program.now }
    requires regular { IsRegular program.now }
    ensures { IsAdvised program.now result }
{
    match Flow::of(alloc, program) {
        Ok(flow) => advise_by(alloc, program, &flow),
        Err(FlowFault::TooDeep) => Err(AdviseFault::TooDeep),
        Err(FlowFault::TooLarge(size)) => Err(AdviseFault::TooLarge(size)),
        Err(FlowFault::NoMemory(memory)) => Err(AdviseFault::NoMemory(memory)),
    }
}

/// The advice for the program of a graph.
fn advise_by(alloc: Global, program: &Program, flow: &Flow<'_>) -> Result<Advice, AdviseFault>
    requires ordered { IsOrdered program.now }
    requires limits { IsWithinLimits program.now }
    requires regular { IsRegular program.now }
    requires bounds { IsWithinBounds program.now }
    requires flow { IsFlow program.now flow.now }
    requires numbers { AreNumbered flow.now }
    ensures { IsAdvised program.now result }
{
    let mut search = Search::new(alloc, flow.len())?;
    try_input(alloc, program, flow, &mut search)?;
    let mut files = DueSets::new(alloc)?;
    let depths = find_depths(alloc, program, flow, &mut search, &mut files)?;
    let mut items = DueSets::new(alloc)?;
    find_items(alloc, program, flow, &mut search, &mut items)?;
    let lists = lists_of(alloc, program, &items, &files)?;
    Ok(Advice { lists, depths })
}

/// Tries whether some path sends after a request was read: no list mends it.
fn try_input(
    alloc: Global,
    program: &Program,
    flow: &Flow<'_>,
    search: &mut Search,
) -> Result<(), AdviseFault>
    requires bounds { IsWithinBounds program.now }
    requires flow { IsFlow program.now flow.now }
    requires numbers { AreNumbered flow.now }
    requires clear { IsClear search.old.seen.items }
    requires room { length search.old.seen.items ≡ length flow.now * (MOST_DEPTH + 1) }
    ensures tried { IsInputTried program.now result }
    ensures clear { OnOk result (IsClear search.new.seen.items) }
    ensures room { length search.new.seen.items ≡ length search.old.seen.items }
{
    let reason = Reason::Input;
    let aim = Aim {
        reason,
        most: 1,
        ends: true,
    };
    match search.run(alloc, flow, aim)? {
        None => Ok(()),
        Some(path) => Err(AdviseFault::Unmendable { reason, path }),
    }
}

/// Finds how many replies each file needs, in the order of the OPENs, and gathers where the files have to be named.
fn find_depths(
    alloc: Global,
    program: &Program,
    flow: &Flow<'_>,
    search: &mut Search,
    files: &mut DueSets,
) -> Result<List<u8>, AdviseFault>
    requires limits { IsWithinLimits program.now }
    requires bounds { IsWithinBounds program.now }
    requires flow { IsFlow program.now flow.now }
    requires numbers { AreNumbered flow.now }
    requires input { NoneDeepBefore program.now 0 }
    requires clear { IsClear search.old.seen.items }
    requires room { length search.old.seen.items ≡ length flow.now * (MOST_DEPTH + 1) }
    requires count { length files.old.sets.items ≡ MOST_STATEMENTS + 1 }
    requires due { AreDue (IsFileDue program.now) files.old.sets.items 0 }
    ensures found { AreDepthsFound program.now result }
    ensures due { OnOk result (AreDue (IsFileDue program.now) files.new.sets.items (length program.now.files)) }
    ensures clear { OnOk result (IsClear search.new.seen.items) }
    ensures room { length search.new.seen.items ≡ length search.old.seen.items }
{
    let mut depths = List::new(alloc);
    for file in 0..program.files.len() as u8 {
        depths.push(find_depth(alloc, program, flow, search, files, file)?)?;
    }
    Ok(depths)
}

/// Finds how many replies a file needs, and gathers where it has to be named.
fn find_depth(
    alloc: Global,
    program: &Program,
    flow: &Flow<'_>,
    search: &mut Search,
    files: &mut DueSets,
    file: u8,
) -> Result<u8, AdviseFault>
    requires there { file < length program.now.files }
    requires limits { IsWithinLimits program.now }
    requires bounds { IsWithinBounds program.now }
    requires flow { IsFlow program.now flow.now }
    requires numbers { AreNumbered flow.now }
    requires before { NoneDeepBefore program.now file }
    requires clear { IsClear search.old.seen.items }
    requires room { length search.old.seen.items ≡ length flow.now * (MOST_DEPTH + 1) }
    requires count { length files.old.sets.items ≡ MOST_STATEMENTS + 1 }
    requires due { AreDue (IsFileDue program.now) files.old.sets.items file }
    ensures found { IsDepthFound program.now file result }
    ensures due { OnOk result (AreDue (IsFileDue program.now) files.new.sets.items (file + 1)) }
    ensures count { OnOk result (length files.new.sets.items ≡ MOST_STATEMENTS + 1) }
    ensures clear { OnOk result (IsClear search.new.seen.items) }
    ensures room { length search.new.seen.items ≡ length search.old.seen.items }
{
    let reason = Reason::Depth(file);
    let aim = Aim {
        reason,
        most: MOST_DEPTH,
        ends: true,
    };
    match search.run(alloc, flow, aim)? {
        None => {
            let visits = search.visits();
            files.add(flow, visits, u16::from(file));
            Ok(deepest(flow, visits, file))
        }
        Some(path) => Err(AdviseFault::Unmendable { reason, path }),
    }
}

/// Gathers where the globals have to be named, as they are declared.
fn find_items(
    alloc: Global,
    program: &Program,
    flow: &Flow<'_>,
    search: &mut Search,
    items: &mut DueSets,
) -> Result<(), NoMemory>
    requires limits { IsWithinLimits program.now }
    requires flow { IsFlow program.now flow.now }
    requires numbers { AreNumbered flow.now }
    requires clear { IsClear search.old.seen.items }
    requires room { length search.old.seen.items ≡ length flow.now * (MOST_DEPTH + 1) }
    requires count { length items.old.sets.items ≡ MOST_STATEMENTS + 1 }
    requires due { AreDue (IsItemDue program.now) items.old.sets.items 0 }
    ensures due { OnOk result (AreDue (IsItemDue program.now) items.new.sets.items (length program.now.items)) }
{
    for item in 0..program.items.len() as u16 {
        find_item(alloc, program, flow, search, items, item)?;
    }
    Ok(())
}

/// Gathers where a global has to be named.
fn find_item(
    alloc: Global,
    program: &Program,
    flow: &Flow<'_>,
    search: &mut Search,
    items: &mut DueSets,
    item: u16,
) -> Result<(), NoMemory>
    requires there { item < length program.now.items }
    requires limits { IsWithinLimits program.now }
    requires flow { IsFlow program.now flow.now }
    requires numbers { AreNumbered flow.now }
    requires clear { IsClear search.old.seen.items }
    requires room { length search.old.seen.items ≡ length flow.now * (MOST_DEPTH + 1) }
    requires count { length items.old.sets.items ≡ MOST_STATEMENTS + 1 }
    requires due { AreDue (IsItemDue program.now) items.old.sets.items item }
    ensures due { OnOk result (AreDue (IsItemDue program.now) items.new.sets.items (item + 1)) }
    ensures count { OnOk result (length items.new.sets.items ≡ MOST_STATEMENTS + 1) }
    ensures clear { OnOk result (IsClear search.new.seen.items) }
    ensures room { length search.new.seen.items ≡ length search.old.seen.items }
{
    let reason = Reason::Data(item);
    let aim = Aim {
        reason,
        most: 1,
        ends: false,
    };
    let _ = search.run(alloc, flow, aim)?;
    items.add(flow, search.visits(), item);
    Ok(())
}
