ghost use Rattle.std.specs.Prelude.{◌≡◌, [], ◌∷◌, ◌++◌, MatchOption, OnOk};

use gd_words::{Ident, NoMemory};
use std::alloc::Global;
use std::collections::VecDeque;
use tal_names::System;
use tal_pieces::{Keyword, Symbol, TestRank, ValueRank};
use tal_tree::{Cond, Expr, Item, Procedure, Spot, Statement, Target, What};

/// A part of a program that is still to be printed.
#[derive(Clone, Copy)]
pub enum Part<'a> {
    Value(ValueRank, &'a Expr),
    Spot(&'a Spot),
    Test(TestRank, &'a Cond),
    /// The values of a call, in a list where there are any.
    Arguments(&'a [Expr]),
    /// More values of a list, a comma before each.
    Values(&'a [Expr]),
    What(&'a What),
    /// What a FOR counts by, where it isn't 1.
    Step(i16),
    /// Statements in the place of one.
    Inner(&'a [Statement]),
    /// More statements, a semicolon before each.
    Statements(&'a [Statement]),
    /// The statements of a procedure.
    Body(&'a [Statement]),
    /// The list of a CHECKPOINT, items first.
    Checkpoint(&'a [u16], &'a [u8]),
    /// More items of a CHECKPOINT, a comma before each.
    Kept(&'a [u16]),
    /// More files of a CHECKPOINT, a comma before each.
    Files(&'a [u8]),
    /// The list of a procedure's parameters.
    Parameters(&'a [Ident]),
    /// More names of a list, a comma before each.
    Names(&'a [Ident]),
    /// Declarations of locals.
    Locals(&'a [Ident]),
    /// Declarations of globals.
    Items(&'a [Item]),
    /// Procedures before the main one, or after it.
    Procedures(&'a [Procedure]),
    /// Procedures whose first one is the main one.
    Main(&'a [Procedure]),
}

/// What is to be done: one piece is written, a procedure with these locals is entered, or a part is taken apart.
#[derive(Clone, Copy)]
pub enum Work<'a> {
    Word(Keyword),
    /// A keyword, where it is wanted.
    Optional(bool, Keyword),
    Sign(Symbol),
    System(System),
    Number(i16),
    Target(&'a Target),
    /// A name, where there is one.
    Name(Option<&'a Ident>),
    Enter(&'a [Ident]),
    Part(Part<'a>),
}

/// What is still to be done, the next first. It stands in the place of recursion, so that no tree is too deep to be
/// printed.
#[derive(Drop)]
pub struct WorkList<'a> {
    works: VecDeque<Work<'a>>,
}

impl<'a> WorkList<'a> {
    /// Nothing to be done.
    pub fn new(alloc: Global) -> WorkList<'a>
        ensures { result.works.items ≡ [] }
    {
        WorkList {
            works: VecDeque::new(alloc),
        }
    }

    /// Takes what is next to be done.
    pub fn pop(&mut self) -> Option<Work<'a>>
        ensures { MatchOption result ((self.old.works.items ≡ []) × (self.new.works.items ≡ []))
            (λ work. self.old.works.items ≡ work ∷ self.new.works.items) }
    {
        self.works.pop_front()
    }

    /// Puts these before all others, in this order.
    pub fn put(&mut self, works: &[Work<'a>]) -> Result<(), NoMemory>
        ensures { OnOk result (self.new.works.items ≡ works.now ++ self.old.works.items) }
    {
        let mut k = works.len();
        while k > 0 {
            k -= 1;
            self.works.push_front(works[k])?;
        }
        Ok(())
    }
}
