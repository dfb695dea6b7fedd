ghost use Rattle.std.specs.Prelude.{◌≡◌, ◌↔◌, true, IsTrue};
ghost use Rattle.tal_tree.specs.Limits.{IsWithinLimits};
ghost use Rattle.tal_tree.specs.Ordered.{IsOrdered};
ghost use Rattle.path_semantics.specs.Break.{Breaks};
ghost use Rattle.path_semantics.specs.Path.{IsPath};
ghost use Rattle.due_search.specs.reason_dues.specs.Amounts.{most_of, is_there};
ghost use Rattle.discipline.specs.Walker.{BreaksNext};

use crate::walk::{Course, Walker};
use crate::walker::next;
use due_search::{may_break_at, most_of};
use path_semantics::Reason;
use tal_tree::Program;

/// Whether a list of statement numbers is a path of the program. It takes no memory.
pub fn is_path(program: &Program, path: &[u16]) -> bool
    requires ordered { IsOrdered program.now }
    requires limits { IsWithinLimits program.now }
    ensures { IsTrue result ↔ IsPath program.now path.now }
{
    let reason = Reason::Input;
    let most = 1;
    let course = Course {
        program,
        reason,
        most,
    };
    if path.is_empty() {
        return true;
    }
    match course.walk(path) {
        None => false,
        Some(_) => true,
    }
}

/// Whether a list of statement numbers is a path of the program that breaks for a reason. It takes no memory.
pub fn breaks(program: &Program, path: &[u16], reason: Reason) -> bool
    requires ordered { IsOrdered program.now }
    requires limits { IsWithinLimits program.now }
    ensures { IsTrue result ↔ Breaks program.now path.now reason }
{
    if !is_there(program, reason) {
        return false;
    }
    let most = most_of(program, reason);
    let course = Course {
        program,
        reason,
        most,
    };
    match course.walk(path) {
        None => false,
        Some(walker) => course.breaks(&walker),
    }
}

/// Whether a reason speaks of a file that is there, if of a file's depth.
fn is_there(program: &Program, reason: Reason) -> bool
    ensures { result ≡ is_there program.now reason }
{
    match reason {
        Reason::Depth(file) => program.files.get(usize::from(file)).is_some(),
        _ => true,
    }
}

impl Course<'_> {
    /// Whether what comes next breaks.
    fn breaks(self, walker: &Walker) -> bool
        requires most { self.most ≡ most_of self.program.now self.reason }
        requires there { is_there self.program.now self.reason ≡ true }
        ensures { BreaksNext self.entry.program.now self.entry.reason walker.now.stack walker.now.due result }
    {
        let Some(top) = walker.stack.top() else {
            return false;
        };
        let Some(found) = next(self.program, top) else {
            return false;
        };
        let enough = self.most <= walker.due;
        may_break_at(self.reason, found.entry) && enough
    }
}
