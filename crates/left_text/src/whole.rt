ghost use Rattle.std.specs.Prelude.{◌≡◌, ◌≤◌, ◌++◌, length, OnOk};
ghost use Rattle.left_text.specs.LeftText.{left_text};
ghost use Rattle.gd_words.specs.declared.limits.TheConstants.{MOST_DECK_BYTES};

use crate::process_ends::put_processes;
use crate::ring_ends::put_rings;
use crate::terminals::put_terminals;
use gd_words::{List, NoMemory};
use left_findings::Left;
use program_ends::LastStep;
use tal_tree::Site;

/// Puts what is left at the end of a run of the deck of these bytes behind the text, whose processes ended with these
/// steps.
pub fn put_left(
    text: &mut List<u8>,
    bytes: &[u8],
    site: &Site,
    left: &Left,
    steps: &[Option<LastStep>],
) -> Result<(), NoMemory>
    requires { length bytes.now ≤ MOST_DECK_BYTES }
    ensures { OnOk result (text.new ≡ text.old ++ left_text bytes.now site.now left.now steps.now) }
{
    let processes = site.processes.as_slice();
    put_terminals(text, site.terminals.as_slice(), left.terminals.as_slice())?;
    put_processes(
        text,
        bytes,
        processes,
        processes,
        left.processes.as_slice(),
        steps,
    )?;
    put_rings(text, processes, left.rings.as_slice())
}
