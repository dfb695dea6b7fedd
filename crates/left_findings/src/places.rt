ghost use Rattle.std.specs.Prelude.{◌≡◌, IfOk};
ghost use Rattle.left_findings.specs.Places.{line_of_copy};

use gd_words::NoMemory;
use machine_views::CopyView;
use program_ends::line_of_number;
use std::alloc::Global;
use tal_tree::Kind;

/// The line of what a copy of a process does next; none where nothing comes.
pub(crate) fn line_of_copy(
    alloc: Global,
    what: &Kind,
    copy: &CopyView,
) -> Result<Option<u32>, NoMemory>
    ensures { IfOk result (λ line. line ≡ line_of_copy what.now copy.now) }
{
    match what {
        Kind::Disc { .. } => Ok(None),
        Kind::Pair(program) => line_of_number(alloc, program, copy.next),
    }
}
