ghost use Rattle.std.specs.Prelude.{◌≡◌, ◌≤◌, ◌<◌, ◌+◌, [], ◌∷◌, drop, length, slice_get};
ghost use Rattle.gd_words.specs.declared.limits.TheConstants.{MOST_PROCEDURES};

use arrayvec::ArrayVec;
use gd_words::limits::MOST_PROCEDURES;
use std::marker::Model;

/// How many procedures a text has at most.
const PROCEDURES: usize = MOST_PROCEDURES as usize;

/// How far a procedure has come: the number of the entry that comes next in it, 0 at its end.
#[derive(Clone, Copy, Default)]
pub(crate) struct Position {
    pub(crate) procedure: u16,
    pub(crate) number: u32,
}

/// The positions of the procedures in progress, at most 64. Contracts see the one that runs first, and MAIN's last.
#[derive(Drop)]
pub(crate) struct Stack {
    positions: ArrayVec<Position, PROCEDURES>,
}

impl Model for Stack {
    ghost use Rattle.std.specs.Prelude.{List, reverse};
    ghost use Rattle.discipline.specs.declared.stack.Position.{Position};

    ghost Value = { List Position };

    ghost view = { λ stack. reverse stack.positions.items };
}

impl Stack {
    /// Nothing is in progress.
    pub(crate) fn new() -> Stack
        ensures { result ≡ [] }
    {
        Stack {
            positions: ArrayVec::new(),
        }
    }

    /// The same stack once more.
    pub(crate) fn copy(&self) -> Stack
        ensures { result ≡ self.now }
    {
        Stack {
            positions: self.positions.clone().unwrap(),
        }
    }

    /// The position of the procedure that runs.
    pub(crate) fn top(&self) -> Option<Position>
        ensures { result ≡ slice_get self.now 0 }
    {
        self.positions.last().copied()
    }

    /// Enters a procedure; where 64 are in progress nothing changes.
    pub(crate) fn push(&mut self, position: Position)
        ensures entered { length self.old < MOST_PROCEDURES → self.new ≡ position ∷ self.old }
        ensures few { length self.new ≤ length self.old + 1 }
    {
        let _ = self.positions.try_push(position);
    }

    /// Leaves the procedure that runs.
    pub(crate) fn pop(&mut self) -> Option<Position>
        ensures top { result ≡ slice_get self.old 0 }
        ensures rest { self.new ≡ drop 1 self.old }
    {
        self.positions.pop()
    }
}
