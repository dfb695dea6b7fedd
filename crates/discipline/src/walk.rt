ghost use Rattle.std.specs.Prelude.{◌≡◌, ◌≤◌};
ghost use Rattle.tal_tree.specs.Limits.{IsWithinLimits};
ghost use Rattle.tal_tree.specs.Ordered.{IsOrdered};
ghost use Rattle.path_semantics.specs.Place.{body_of, first_stand};
ghost use Rattle.process_semantics.specs.Rests.{next_number};
ghost use Rattle.due_search.specs.reason_dues.specs.Amounts.{most_of};
ghost use Rattle.discipline.specs.Walker.{IsAt, IsSettled, HasGone, TellsNextIn, IsStep, IsWalk};
ghost use Rattle.gd_words.specs.declared.limits.TheConstants.{MOST_DEPTH};

use crate::find::first_number;
use crate::stack::{Position, Stack};
use crate::walker::{Way, next, ways_at};
use due_search::{after_entry, after_return};
use path_semantics::Reason;
use tal_tree::Program;

/// Where a path has come: the positions of the procedures in progress, and how much of a reason is due there.
#[derive(Drop)]
pub(crate) struct Walker {
    pub(crate) stack: Stack,
    pub(crate) due: u8,
}

/// The program in which paths are walked, and the reason whose dues are counted, up to as much as breaks.
#[derive(Clone, Copy)]
pub(crate) struct Course<'a> {
    pub(crate) program: &'a Program,
    pub(crate) reason: Reason,
    pub(crate) most: u8,
}

impl Course<'_> {
    /// Where the next number of a path comes, if it goes on so.
    pub(crate) fn walk(self, path: &[u16]) -> Option<Walker>
        requires ordered { IsOrdered self.program.now }
        requires limits { IsWithinLimits self.program.now }
        requires most { self.most ≡ most_of self.program.now self.reason }
        requires few { self.most ≤ MOST_DEPTH }
        ensures { IsWalk self.entry.program.now self.entry.reason path.now result }
    {
        let Some((first, others)) = path.split_first() else {
            return None;
        };
        let mut here = self.start();
        if !here.comes_to(u32::from(*first)) {
            return None;
        }
        for number in others {
            match self.step(&here, u32::from(*number)) {
                Some(there) => here = there,
                None => return None,
            }
        }
        Some(here)
    }

    /// MAIN's beginning.
    fn start(self) -> Walker
        requires ordered { IsOrdered self.program.now }
        requires limits { IsWithinLimits self.program.now }
        requires most { self.most ≡ most_of self.program.now self.reason }
        requires few { self.most ≤ MOST_DEPTH }
        ensures { IsAt self.entry.program.now self.entry.reason result.stack result.due
            (first_stand self.entry.program.now) }
    {
        let mut stack = Stack::new();
        let procedure = self.program.main;
        let number = self.body_number(procedure);
        stack.push(Position { procedure, number });
        let due = 0;
        self.settled(Walker { stack, due })
    }

    /// The step to where a number comes next, if there is one.
    fn step(self, here: &Walker, number: u32) -> Option<Walker>
        requires ordered { IsOrdered self.program.now }
        requires limits { IsWithinLimits self.program.now }
        requires most { self.most ≡ most_of self.program.now self.reason }
        requires few { self.most ≤ MOST_DEPTH }
        ensures { IsStep self.entry.program.now self.entry.reason here.now.stack here.now.due number result }
    {
        let Some(top) = here.stack.top() else {
            return None;
        };
        let Some(found) = next(self.program, top) else {
            return None;
        };
        let after = after_entry(self.reason, found.entry, self.most.min(here.due));
        let due = self.most.min(after);
        let ways = ways_at(found);
        let one = self.go(&here.stack, ways.first, due);
        if one.comes_to(number) {
            return Some(one);
        }
        let Some(second) = ways.second else {
            return None;
        };
        let other = self.go(&here.stack, second, due);
        if other.comes_to(number) {
            Some(other)
        } else {
            None
        }
    }

    /// Where a way leads.
    fn go(self, stack: &Stack, way: Way, due: u8) -> Walker
        requires ordered { IsOrdered self.program.now }
        requires limits { IsWithinLimits self.program.now }
        requires most { self.most ≡ most_of self.program.now self.reason }
        ensures { HasGone self.entry.program.now self.entry.reason stack.now way due result.stack result.due }
    {
        let mut stack = stack.copy();
        match way {
            Way::Onward(number) => {
                if let Some(top) = stack.pop() {
                    let procedure = top.procedure;
                    stack.push(Position { procedure, number });
                }
            }
            Way::Into(procedure) => {
                let number = self.body_number(procedure);
                stack.push(Position { procedure, number });
            }
            Way::End => stack = Stack::new(),
        }
        self.settled(Walker { stack, due })
    }

    /// Leaves the procedures at whose end the walker stands.
    fn settled(self, mut walker: Walker) -> Walker
        requires ordered { IsOrdered self.program.now }
        requires limits { IsWithinLimits self.program.now }
        requires most { self.most ≡ most_of self.program.now self.reason }
        ensures { IsSettled self.entry.program.now self.entry.reason walker.stack walker.due result.stack result.due }
    {
        while let Some(top) = walker.stack.top() {
            if top.number != 0 {
                return walker;
            }
            let _ = walker.stack.pop();
            let Some(caller) = walker.stack.pop() else {
                return walker;
            };
            let Some(found) = next(self.program, caller) else {
                return walker;
            };
            walker.due = after_return(self.reason, self.most, found.entry, walker.due);
            let procedure = caller.procedure;
            let number = found.after;
            walker.stack.push(Position { procedure, number });
        }
        walker
    }

    /// The number with which a procedure begins, 0 where it does nothing.
    fn body_number(self, procedure: u16) -> u32
        ensures { result ≡ next_number (body_of self.entry.program.now procedure) }
    {
        match self.program.procedures.get(usize::from(procedure)) {
            None => 0,
            Some(procedure) => first_number(procedure.body.as_slice(), 0),
        }
    }
}

impl Walker {
    /// Whether a number comes next.
    pub(crate) fn comes_to(&self, number: u32) -> bool
        ensures { TellsNextIn self.now.stack number result }
    {
        match self.stack.top() {
            None => false,
            Some(top) => number != 0 && top.number == number,
        }
    }
}
