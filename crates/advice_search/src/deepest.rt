ghost use Rattle.std.specs.Prelude.{length};
ghost use Rattle.advice_search.specs.Gathered.{AreReadable, IsDeepest};

use advice::{Flow, Visit, may_break_at};
use path_semantics::Reason;

/// The least depth that is enough for a file at each of these visits, from 1 on.
pub(crate) fn deepest(flow: &Flow<'_>, visits: &[Visit], file: u8) -> u8
    requires { AreReadable flow.now visits.now }
    ensures { IsDeepest flow.now file visits.now (length visits.now) result }
{
    let mut depth: u8 = 1;
    for visit in visits {
        let entry = flow.node(visit.node).entry();
        if may_break_at(Reason::Depth(file), entry) && visit.due >= depth {
            depth = visit.due + 1;
        }
    }
    depth
}
