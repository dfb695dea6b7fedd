ghost use Rattle.std.specs.Prelude.{◌≡◌};
ghost use Rattle.break_text.specs.BreakText.{act_name, actor_name};

use tal_tree::{Act, Site};
use trace_print::{process_name, terminal_name};

/// What an act is, before the name of who does it.
pub(crate) fn act_name(act: Act) -> &'static [u8]
    ensures { result.now ≡ act_name act }
{
    match act {
        Act::Step(_) => b"a step of ",
        Act::Take { .. } => b"the take of a request by ",
        Act::Enter(_) => b"the entry of a request by ",
        Act::Print(_) => b"the print of a reply by ",
    }
}

/// The name of who does an act.
pub(crate) fn actor_name(site: &Site, act: Act) -> &[u8]
    ensures { result.now ≡ actor_name site.now act }
{
    match act {
        Act::Step(process) => process_name(site, process),
        Act::Take { process, .. } => process_name(site, process),
        Act::Enter(terminal) => terminal_name(site, terminal),
        Act::Print(terminal) => terminal_name(site, terminal),
    }
}
