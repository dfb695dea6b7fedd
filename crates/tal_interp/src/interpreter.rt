ghost use Rattle.std.specs.Prelude.{◌≡◌, ◌≤◌, [], false, length, drop, IfOk, IfSome, IfNone};
ghost use Rattle.process_semantics.specs.tal_values.specs.Seen.{memory_now};
ghost use Rattle.process_semantics.specs.Changes.{done, ends, with_hand, with_waiting, with_word, with_words};
ghost use Rattle.process_semantics.specs.Rests.{next_number};
ghost use Rattle.process_semantics.specs.State.{memory_of, rest_of, start, words_of};
ghost use Rattle.tal_table.specs.program_deeds.specs.Doing.{going_on};
ghost use Rattle.tal_table.specs.Places.{places, rest_at};
ghost use Rattle.tal_table.specs.Tables.{Tells};
ghost use Rattle.tal_interp.specs.SeenFrames.{frames_seen};
ghost use Rattle.tal_interp.specs.Sound.{IsLoadable};

use crate::frame::Frame;
use crate::locals::Locals;
use gd_words::{List, NoMemory};
use process_semantics::globals::{overwrite, zeroed};
use process_semantics::{Cell, Memory};
use std::alloc::Global;
use std::marker::Model;
use tal_table::{Node, Table};
use tal_tree::Program;

/// A program that runs by its table: the words of its globals, the procedure that runs, none where the program has
/// ended, and its callers, MAIN first. `restored` is the room for the frames of an image, and what stands in it between
/// calls means nothing.
#[derive(Drop)]
pub(crate) struct Interpreter {
    pub(crate) table: Table,
    pub(crate) globals: Vec<List<i16>>,
    pub(crate) running: Option<Frame>,
    pub(crate) callers: Vec<Frame>,
    pub(crate) in_hand: bool,
    pub(crate) awaits: bool,
    pub(crate) restored: Vec<Frame>,
}

impl Model for Interpreter {
    ghost use Rattle.std.specs.Prelude.{◌≤◌, length, is_none, vec_capacity};
    ghost use Rattle.std.specs.Coded.{codes};
    ghost use Rattle.tal_tree.specs.contracts.statement.Statement as statement;
    ghost use Rattle.process_semantics.specs.State as semantics;
    ghost use Rattle.tal_table.specs.Places.{places};
    ghost use Rattle.tal_interp.specs.SeenFrames.{frames_seen};

    ghost Value = { semantics.Execution };

    ghost coded = { Prim.hlevel (codes, statement.the_row.coded) };

    ghost view = { λ it. record {
      program = it.table;
      state = record {
        globals = it.globals.items;
        frames = frames_seen (places it.table) it.running it.callers.items;
        in_hand = it.in_hand;
        awaits = it.awaits;
        ended = is_none it.running;
      };
    } };

    ghost invariant = { λ it. (length it.table.procedures ≤ vec_capacity it.callers)
        × (length it.table.procedures ≤ vec_capacity it.restored) };
}

impl Interpreter {
    /// A program at its beginning. All memory that its steps and images need is taken here, and what an image is
    /// written to.
    pub(crate) fn load(alloc: Global, program: &Program) -> Result<Interpreter, NoMemory>
        requires { IsLoadable program.now }
        ensures { IfOk result (λ it. it ≡ record { program = program.now; state = start program.now }) }
    {
        let table = Table::load(alloc, program)?;
        let globals = zeroed(alloc, program.items.as_slice())?;
        let callers = Vec::with_capacity(alloc, table.procedure_count())?;
        let restored = Vec::with_capacity(alloc, table.procedure_count())?;
        let running = first_frame(&table);
        Ok(Interpreter {
            table,
            globals,
            running,
            callers,
            in_hand: false,
            awaits: false,
            restored,
        })
    }

    /// What the expressions at the number that comes next read.
    pub(crate) fn memory(&self) -> Memory<'_>
        ensures { memory_now result ≡ memory_of self.now.program self.now.state }
    {
        let locals: &[i16] = match &self.running {
            None => &[],
            Some(frame) => frame.locals.as_slice(),
        };
        Memory {
            items: self.table.items(),
            globals: self.globals.as_slice(),
            locals,
        }
    }

    /// The node of the number that comes next; none past the table, and where the program has ended.
    pub(crate) fn node(&self) -> Option<&Node>
        ensures some { IfSome result (λ node. Tells self.now.program (rest_of self.now.state.frames) node.now) }
        ensures none { IfNone result (rest_of self.now.state.frames ≡ []) }
        ensures runs { IfSome result (λ _. self.now.state.ended ≡ false) }
    {
        match &self.running {
            None => None,
            Some(frame) => self.table.node(frame.at),
        }
    }

    /// The number of the entry that comes next: 0 at a procedure's end, and where the program has ended.
    pub(crate) fn next_number(&self) -> u16
        ensures { result ≡ next_number (rest_of self.now.state.frames) }
    {
        match &self.running {
            None => 0,
            Some(frame) => self.table.next_number(frame.at),
        }
    }

    /// Goes on at a number.
    pub(crate) fn go(&mut self, next: u16)
        ensures { self.new ≡ record self.old {
          state =
              going_on (rest_at (places self.old.program) next) self.old.state;
        } }
    {
        if let Some(frame) = &mut self.running {
            frame.at = next;
        }
    }

    /// Goes on after the entry that comes next.
    pub(crate) fn finish(&mut self, after: u16)
        requires { rest_at (places self.old.program) after ≡ drop 1 (rest_of self.old.state.frames) }
        ensures { self.new ≡ record self.old { state = done self.old.state } }
    {
        self.go(after);
    }

    /// Puts a word into a cell.
    pub(crate) fn set_word(&mut self, cell: Cell, word: i16)
        ensures { self.new ≡ record self.old { state = with_word cell word self.old.state } }
    {
        match cell {
            Cell::Local(place) => {
                if let Some(frame) = &mut self.running {
                    frame.locals.set(usize::from(place), word);
                }
            }
            Cell::Global { item, offset } => {
                let item = usize::from(item);
                if item < self.globals.len() {
                    self.globals[item].set(usize::from(offset), word);
                }
            }
        }
    }

    /// The words of a global; none where there is no such global.
    pub(crate) fn words(&self, item: u16) -> &[i16]
        ensures { result.now ≡ words_of self.now.state.globals item }
    {
        match self.globals.as_slice().get(usize::from(item)) {
            None => &[],
            Some(words) => words.as_slice(),
        }
    }

    /// Puts words over those at the start of a global.
    pub(crate) fn set_words(&mut self, item: u16, words: &[i16])
        requires { length words.now ≤ length (words_of self.old.state.globals item) }
        ensures { self.new ≡ record self.old { state = with_words item words.now self.old.state } }
    {
        let item = usize::from(item);
        if item < self.globals.len() {
            overwrite(&mut self.globals[item], words);
        }
    }

    /// The program ends.
    pub(crate) fn end(&mut self)
        ensures { self.new ≡ record self.old { state = ends self.old.state } }
    {
        self.callers.clear();
        self.running = None;
        self.awaits = false;
    }

    /// Whether the program has ended.
    pub(crate) fn has_ended(&self) -> bool
        ensures { result ≡ self.now.state.ended }
    {
        self.running.is_none()
    }

    /// Whether a request is in hand.
    pub(crate) fn in_hand(&self) -> bool
        ensures { result ≡ self.now.state.in_hand }
    {
        self.in_hand
    }

    /// Whether a reply is awaited.
    pub(crate) fn awaits(&self) -> bool
        ensures { result ≡ self.now.state.awaits }
    {
        self.awaits
    }

    pub(crate) fn set_in_hand(&mut self, in_hand: bool)
        ensures { self.new ≡ record self.old { state = with_hand in_hand self.old.state } }
    {
        self.in_hand = in_hand;
    }

    pub(crate) fn set_awaits(&mut self, awaits: bool)
        ensures { self.new ≡ record self.old { state = with_waiting awaits self.old.state } }
    {
        self.awaits = awaits;
    }
}

/// MAIN's frame at the beginning.
fn first_frame(table: &Table) -> Option<Frame>
    ensures { frames_seen (places table.now) result [] ≡ (start table.now).frames }
{
    let main = table.main();
    let heading = table.heading(main)?;
    let mut locals = Locals::new();
    locals.fill(usize::from(heading.locals));
    Some(Frame {
        procedure: main,
        at: heading.first,
        locals,
    })
}
