ghost use Rattle.std.specs.Prelude.{◌≡◌, ◌≤◌, ◌-◌, ◌∷◌, ◌++◌, length, drop, slice_set, IfOk, OnOk};
ghost use Rattle.std.specs.Option.{option_map};
ghost use Rattle.process_semantics.specs.Rests.{next_number};
ghost use Rattle.tal_tree.specs.Statements.{body_before};
ghost use Rattle.tal_tree.specs.declared.statement.What.{out-What};
ghost use Rattle.process_semantics.specs.State.{Run, first_of, runs_of, frame_of, zeros};
ghost use Rattle.process_semantics.specs.SeenEntries.{entry_of};

use gd_words::{List, NoMemory};
use process_semantics::{Entry, body_before, entry_number};
use std::alloc::Global;
use std::marker::Model;
use tal_tree::{Procedure, Statement};

/// A procedure that runs: its number, its locals, and the entries that remain, the next one last.
#[derive(Drop)]
pub struct Frame<'a> {
    procedure: u16,
    locals: List<i16>,
    rest: Vec<Entry<'a>>,
}

impl<'a> Model for Frame<'a> {
    ghost use Rattle.std.specs.Coded.{codes};
    ghost use Rattle.tal_tree.specs.contracts.statement.Statement as statement;
    ghost use Rattle.process_semantics.specs.State as semantics;
    ghost use Rattle.process_semantics.specs.SeenEntries.{stack};

    ghost Value = { semantics.Frame };

    ghost coded = { Prim.hlevel (codes, statement.the_row.coded) };

    ghost view = { λ frame. record {
      procedure = frame.procedure;
      locals = frame.locals;
      rest = stack frame.rest.items;
    } };
}

impl<'a> Frame<'a> {
    /// The frame of a procedure that is entered with these arguments.
    pub fn new(
        alloc: Global,
        number: u16,
        arguments: List<i16>,
        procedure: &'a Procedure,
    ) -> Result<Frame<'a>, NoMemory>
        ensures { IfOk result (λ frame. frame ≡ frame_of number arguments procedure.now) }
    {
        let locals = with_zeros(arguments, procedure.locals.len())?;
        let mut frame = Frame {
            procedure: number,
            locals,
            rest: Vec::new(alloc),
        };
        frame.put_all(procedure.body.as_slice())?;
        Ok(frame)
    }

    /// Its procedure's number.
    pub fn procedure(&self) -> u16
        ensures { result ≡ self.now.procedure }
    {
        self.procedure
    }

    /// The number of the next entry, 0 at the procedure's end.
    pub fn next_number(&self) -> usize
        ensures number { result ≡ next_number self.now.rest }
        ensures few { result ≤ 65536 }
    {
        match self.next() {
            None => 0,
            Some(entry) => entry_number(entry) as usize,
        }
    }

    /// The locals' words.
    pub fn locals(&self) -> &[i16]
        ensures { result.now ≡ self.now.locals }
    {
        self.locals.as_slice()
    }

    /// The next entry.
    pub fn next(&self) -> Option<Entry<'a>>
        ensures { option_map entry_of result ≡ first_of self.now.rest }
    {
        self.rest.last().copied()
    }

    /// Takes the next entry away.
    pub fn drop_next(&mut self)
        ensures { self.new ≡ record self.old { rest = drop 1 self.old.rest } }
    {
        let _next = self.rest.pop();
    }

    /// Puts an entry before the others.
    pub fn put(&mut self, entry: Entry<'a>) -> Result<(), NoMemory>
        ensures { OnOk result (self.new ≡ record self.old { rest = entry_of entry.entry ∷ self.old.rest }) }
    {
        self.rest.push(entry)?;
        Ok(())
    }

    /// Puts statements before the other entries.
    #[cycle(put)]
    pub fn put_all(&mut self, statements: &'a [Statement]) -> Result<(), NoMemory>
        ensures { OnOk result (self.new ≡ record self.old { rest = runs_of statements.now ++ self.old.rest }) }
    {
        let mut left = statements;
        while let Some((last, front)) = left.split_last() {
            self.put_statement(last)?;
            left = front;
        }
        Ok(())
    }

    /// Puts a statement before the other entries. A DO's body comes before its test.
    #[cycle(put)]
    fn put_statement(&mut self, statement: &'a Statement) -> Result<(), NoMemory>
        ensures { OnOk result (self.new ≡ record self.old {
          rest = runs_of (body_before (out-What statement.now.what)) ++ (Run statement.now ∷ self.old.rest);
        }) }
    {
        self.rest.push(Entry::Run(statement))?;
        self.put_all(body_before(&statement.what))
    }

    /// Sets a local, where it is there.
    pub fn set_local(&mut self, local: usize, word: i16)
        ensures { self.new ≡ record self.old { locals = slice_set self.old.locals local word } }
    {
        self.locals.set(local, word);
    }
}

/// The procedures that run: the one whose entries come next, and those that wait for their calls, MAIN first.
#[derive(Drop)]
pub struct Frames<'a> {
    pub running: Frame<'a>,
    pub callers: Vec<Frame<'a>>,
}

fn with_zeros(mut words: List<i16>, len: usize) -> Result<List<i16>, NoMemory>
    ensures { IfOk result (λ all. all ≡ words ++ zeros (len - length words)) }
{
    for _ in 0..len.saturating_sub(words.len()) {
        words.push(0)?;
    }
    Ok(words)
}
