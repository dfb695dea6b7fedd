ghost use Rattle.std.specs.Prelude.{◌≡◌, [], ◌∷◌, ◌++◌, drop, IsTrue, ◌↔◌, IfOk, OnOk};
ghost use Rattle.std.specs.Option.{option_map};
ghost use Rattle.tal_tree.specs.Statements.{body_before};
ghost use Rattle.tal_tree.specs.declared.statement.What.{out-What};
ghost use Rattle.process_semantics.specs.State.{Run, first_of, runs_of};
ghost use Rattle.process_semantics.specs.SeenEntries.{entry_of};

use gd_words::NoMemory;
use process_semantics::{Entry, body_before};
use std::alloc::Global;
use std::marker::Model;
use tal_tree::Statement;

/// What remains in a procedure, the next entry last.
#[derive(Drop)]
pub(crate) struct Frame<'a> {
    rest: Vec<Entry<'a>>,
}

impl<'a> Model for Frame<'a> {
    ghost use Rattle.std.specs.Prelude.{List as Items};
    ghost use Rattle.std.specs.Coded.{codes};
    ghost use Rattle.tal_tree.specs.contracts.statement.Statement as statement;
    ghost use Rattle.process_semantics.specs.State as semantics;
    ghost use Rattle.process_semantics.specs.SeenEntries.{stack};

    ghost Value = { Items semantics.Entry };

    ghost coded = { Prim.hlevel (codes, statement.the_row.coded) };

    ghost view = { λ frame. stack frame.rest.items };
}

impl<'a> Frame<'a> {
    /// Nothing remains.
    pub(crate) fn new(alloc: Global) -> Frame<'a>
        ensures { result ≡ [] }
    {
        Frame {
            rest: Vec::new(alloc),
        }
    }

    /// The same frame once more.
    pub(crate) fn copy(&self, alloc: Global) -> Result<Frame<'a>, NoMemory>
        ensures { IfOk result (λ frame. frame ≡ self.now) }
    {
        let rest = Vec::from_slice(alloc, self.rest.as_slice())?;
        Ok(Frame { rest })
    }

    /// The next entry.
    pub(crate) fn next(&self) -> Option<Entry<'a>>
        ensures { option_map entry_of result ≡ first_of self.now }
    {
        self.rest.last().copied()
    }

    /// Takes the next entry.
    pub(crate) fn take(&mut self) -> Option<Entry<'a>>
        ensures next { option_map entry_of result ≡ first_of self.old }
        ensures rest { self.new ≡ drop 1 self.old }
    {
        self.rest.pop()
    }

    /// Puts an entry before the others.
    pub(crate) fn put(&mut self, entry: Entry<'a>) -> Result<(), NoMemory>
        ensures { OnOk result (self.new ≡ entry_of entry.entry ∷ self.old) }
    {
        self.rest.push(entry)?;
        Ok(())
    }

    /// Puts statements before the other entries.
    #[cycle(put)]
    pub(crate) fn put_all(&mut self, statements: &'a [Statement]) -> Result<(), NoMemory>
        ensures { OnOk result (self.new ≡ runs_of statements.now ++ self.old) }
    {
        let mut left = statements;
        while let Some((last, front)) = left.split_last() {
            self.put_statement(last)?;
            left = front;
        }
        Ok(())
    }

    /// Puts a statement before the other entries. A DO's body comes before its test.
    #[cycle(put)]
    fn put_statement(&mut self, statement: &'a Statement) -> Result<(), NoMemory>
        ensures { OnOk result (self.new
            ≡ runs_of (body_before (out-What statement.now.what)) ++ (Run statement.now ∷ self.old)) }
    {
        self.rest.push(Entry::Run(statement))?;
        self.put_all(body_before(&statement.what))
    }
}
