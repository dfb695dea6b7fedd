ghost use Rattle.std.specs.Prelude.{◌≡◌, ◌<◌, All, false, length, IfOk};
ghost use Rattle.process_semantics.specs.Process.{in_hand};
ghost use Rattle.whole_states.specs.Listing as listing;
ghost use Rattle.whole_states.specs.Processes.{IsWholeProcess};
ghost use Rattle.plain_semantics.specs.Openers.{files_of};
ghost use Rattle.processes.specs.Seen.{IsLoadableKind, state_of};
ghost use Rattle.sync_ids.specs.Tables.{IsDepth};

use crate::scripts::Copies;
use gd_words::NoMemory;
use plain_semantics::files_of;
use process_control::CopyControl;
use processes::Process;
use std::alloc::Global;
use std::test::Fail;
use tal_tree::{Kind, OpenerSpec, Who};
use worked_programs::program_of;
use world_semantics::Role;

/// A pair that runs the program of a text.
fn pair_of(alloc: Global, text: &[u8]) -> Result<Kind, Fail>
    ensures { IfOk result IsLoadableKind }
{
    let program = program_of(alloc, text)?;
    Ok(Kind::Pair(program))
}

/// The process at its beginning: with nothing in hand, and as many files as its program has.
fn load(alloc: Global, kind: &Kind) -> Result<Process, NoMemory>
    requires { IsLoadableKind kind.now }
    ensures whole { IfOk result (λ process. IsWholeProcess (state_of process)) }
    ensures free { IfOk result (λ process. in_hand (state_of process) ≡ false) }
    ensures files { IfOk result (λ process. length (files_of kind.now) ≡ listing.files_of (state_of process)) }
{
    let process = Process::load(alloc, kind)?;
    Ok(process)
}

/// A copy at its start.
pub fn start(
    alloc: Global,
    kind: &Kind,
    role: Role,
    openers: &[OpenerSpec],
) -> Result<CopyControl<Process>, Fail>
    requires kind { IsLoadableKind kind.now }
    requires few { length openers.now < 4096 }
    requires depths { All (λ opener. IsDepth opener.depth) openers.now }
{
    let files = files_of(kind).len();
    if files > 8 {
        return Err(Fail::from("more files"));
    }
    let process = load(alloc, kind)?;
    let copy = CopyControl::start(alloc, process, role, openers, files as u8)?;
    Ok(copy)
}

/// The blank copy of a process at its beginning, in this era.
fn start_blank(
    alloc: Global,
    kind: &Kind,
    era: u32,
    openers: &[OpenerSpec],
) -> Result<CopyControl<Process>, Fail>
    requires kind { IsLoadableKind kind.now }
    requires few { length openers.now < 4096 }
    requires depths { All (λ opener. IsDepth opener.depth) openers.now }
{
    let files = files_of(kind).len();
    if files > 8 {
        return Err(Fail::from("more files"));
    }
    let process = load(alloc, kind)?;
    let copy = CopyControl::blank(alloc, process, era, openers, files as u8)?;
    Ok(copy)
}

/// A copy that acts, of the process of a text at its start, and a blank one in this era.
pub fn start_with_blank(
    alloc: Global,
    text: &[u8],
    era: u32,
    openers: &[OpenerSpec],
) -> Result<Copies<Process>, Fail>
    requires few { length openers.now < 4096 }
    requires depths { All (λ opener. IsDepth opener.depth) openers.now }
{
    let kind = pair_of(alloc, text)?;
    let first = start(alloc, &kind, Role::Acting, openers)?;
    let second = start_blank(alloc, &kind, era, openers)?;
    Ok(Copies {
        first,
        second,
        sent: None,
    })
}

/// Two copies of the process of a text at their start.
pub fn start_both(
    alloc: Global,
    text: &[u8],
    openers: &[OpenerSpec],
) -> Result<Copies<Process>, Fail>
    requires few { length openers.now < 4096 }
    requires depths { All (λ opener. IsDepth opener.depth) openers.now }
{
    let kind = pair_of(alloc, text)?;
    let first = start(alloc, &kind, Role::Acting, openers)?;
    let second = start(alloc, &kind, Role::Watching, openers)?;
    Ok(Copies {
        first,
        second,
        sent: None,
    })
}

/// A terminal that asks, of which so many replies are kept.
pub fn terminal(depth: u8) -> OpenerSpec
    requires { IsDepth depth }
    ensures { IsDepth result.depth }
{
    OpenerSpec {
        who: Who::Terminal(0),
        depth,
    }
}
