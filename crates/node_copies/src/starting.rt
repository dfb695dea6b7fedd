ghost use Rattle.std.specs.Prelude.{◌≡◌, ◌≤◌, All, false, length, map, IfOk};
ghost use Rattle.gd_words.specs.declared.limits.TheConstants.{MOST_FILES};
ghost use Rattle.process_semantics.specs.Process.{in_hand, start_of};
ghost use Rattle.message_wires.specs.plain_semantics.specs.Openers.{files_of};
ghost use Rattle.processes.specs.Seen.{IsLoadableKind, state_of};
ghost use Rattle.file_calls.specs.sync_ids.specs.Tables.{IsDepth};
ghost use Rattle.process_control.specs.whole_states.specs.Listing as listing;
ghost use Rattle.process_control.specs.whole_states.specs.Processes.{IsWholeProcess};
ghost use Rattle.kept_acts.specs.world_semantics.specs.Core.{core_at_start};
ghost use Rattle.kept_acts.specs.world_semantics.specs.Rules.{blank_copy};
ghost use Rattle.kept_acts.specs.world_semantics.specs.World.{copy_at_boot};

use crate::one::NodeCopy;
use file_calls::Waiting;
use gd_words::NoMemory;
use kept_acts::{CopyShare, Role};
use message_wires::files_of;
use process_control::CopyControl;
use processes::Process;
use std::alloc::Global;
use tal_tree::{Kind, OpenerSpec};

impl NodeCopy {
    /// A copy of a process in its processor, at the beginning.
    pub fn start(
        alloc: Global,
        what: &Kind,
        processor: u8,
        role: Role,
        openers: &[OpenerSpec],
    ) -> Result<NodeCopy, NoMemory>
        requires loadable { IsLoadableKind what.now }
        requires few_files { length (files_of what.now) ≤ MOST_FILES }
        requires few_openers { length openers.now ≤ 144 }
        requires depths { All (λ opener. IsDepth opener.depth) openers.now }
        ensures { IfOk result (λ one. one ≡ record {
          copy = copy_at_boot role processor
              (core_at_start (start_of what.now) (length (files_of what.now)) openers.now);
          depths = map (λ opener. opener.depth) openers.now;
        }) }
    {
        let process = load(alloc, what)?;
        let files = files_of(what).len() as u8;
        let control = CopyControl::start(alloc, process, role, openers, files)?;
        let waiting = Waiting::new(alloc, openers.len() as u16)?;
        Ok(NodeCopy {
            processor,
            control,
            waiting,
            share: CopyShare::new(alloc),
        })
    }

    /// The blank copy of a process in its processor, which was loaded again: at the beginning, in this era.
    pub fn blank(
        alloc: Global,
        what: &Kind,
        processor: u8,
        era: u32,
        openers: &[OpenerSpec],
    ) -> Result<NodeCopy, NoMemory>
        requires loadable { IsLoadableKind what.now }
        requires few_files { length (files_of what.now) ≤ MOST_FILES }
        requires few_openers { length openers.now ≤ 144 }
        requires depths { All (λ opener. IsDepth opener.depth) openers.now }
        ensures { IfOk result (λ one. one ≡ record {
          copy = blank_copy processor era
              (core_at_start (start_of what.now) (length (files_of what.now)) openers.now);
          depths = map (λ opener. opener.depth) openers.now;
        }) }
    {
        let process = load(alloc, what)?;
        let files = files_of(what).len() as u8;
        let control = CopyControl::blank(alloc, process, era, openers, files)?;
        let waiting = Waiting::new(alloc, openers.len() as u16)?;
        Ok(NodeCopy {
            processor,
            control,
            waiting,
            share: CopyShare::new(alloc),
        })
    }
}

/// The process at its beginning: with nothing in hand, and as many files as its program has.
fn load(alloc: Global, what: &Kind) -> Result<Process, NoMemory>
    requires { IsLoadableKind what.now }
    ensures state { IfOk result (λ process. state_of process ≡ start_of what.now) }
    ensures whole { IfOk result (λ process. IsWholeProcess (state_of process)) }
    ensures free { IfOk result (λ process. in_hand (state_of process) ≡ false) }
    ensures files { IfOk result (λ process. length (files_of what.now) ≡ listing.files_of (state_of process)) }
{
    let process = Process::load(alloc, what)?;
    Ok(process)
}
