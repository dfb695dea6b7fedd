ghost use Rattle.std.specs.Prelude.{◌≡◌, ◌≤◌, ◌∷◌, ◌++◌, [], length, map, drop, slice_get, slice_set, IfOk, OnOk};
ghost use Rattle.std.specs.Option.{option_map};
ghost use Rattle.tal_values.specs.Seen.{memory_now};
ghost use Rattle.process_semantics.specs.State.{start, first_frames, memory_of, next_of, words_of, frame_of, first_of};
ghost use Rattle.process_semantics.specs.State.{runs_of};
ghost use Rattle.process_semantics.specs.Changes.{with_word, with_words, with_hand, with_waiting, before, entering};
ghost use Rattle.process_semantics.specs.Changes.{left, done, ends};
ghost use Rattle.process_semantics.specs.SeenEntries.{entry_of};
ghost use Rattle.plain_program.specs.SeenFrames.{frames_of};

use crate::frame::{Frame, Frames};
use gd_words::{List, NoMemory};
use process_semantics::Entry;
use process_semantics::globals::{overwrite, zeroed};
use std::alloc::Global;
use std::marker::Model;
use tal_tree::{Procedure, Program, Statement};
use tal_values::{Cell, Memory};

/// A program that runs, one step after the other. It is plain and slow: it evaluates the trees as they stand.
#[derive(Drop)]
pub struct Execution<'a> {
    program: &'a Program,
    globals: Vec<List<i16>>,
    frames: Option<Frames<'a>>,
    in_hand: bool,
    awaits: bool,
    ended: bool,
}

impl<'a> Model for Execution<'a> {
    ghost use Rattle.std.specs.Coded.{codes};
    ghost use Rattle.tal_tree.specs.contracts.statement.Statement as statement;
    ghost use Rattle.process_semantics.specs.State as semantics;
    ghost use Rattle.plain_program.specs.SeenFrames.{frames_of};

    ghost Value = { semantics.Execution };

    ghost coded = { Prim.hlevel (codes, statement.the_row.coded) };

    ghost view = { λ execution. record {
      program = execution.program.now;
      state = record {
        globals = execution.globals.items;
        frames = frames_of execution.frames;
        in_hand = execution.in_hand;
        awaits = execution.awaits;
        ended = execution.ended;
      };
    } };
}

impl<'a> Execution<'a> {
    /// The program at its beginning.
    pub fn start(alloc: Global, program: &'a Program) -> Result<Execution<'a>, NoMemory>
        ensures { IfOk result (λ execution. execution ≡ record { program = program.now; state = start program.now }) }
    {
        let globals = zeroed(alloc, program.items.as_slice())?;
        let frames = first_frames(alloc, program)?;
        Ok(Execution {
            program,
            globals,
            frames,
            in_hand: false,
            awaits: false,
            ended: false,
        })
    }

    /// The next entry; none at a procedure's end.
    pub(crate) fn next(&self) -> Option<Entry<'a>>
        ensures { option_map entry_of result ≡ next_of self.now.state.frames }
    {
        match &self.frames {
            None => None,
            Some(frames) => frames.running.next(),
        }
    }

    /// What its expressions read.
    pub(crate) fn memory(&self) -> Memory<'_>
        ensures { memory_now result ≡ memory_of self.now.program self.now.state }
    {
        let locals: &[i16] = match &self.frames {
            None => &[],
            Some(frames) => frames.running.locals(),
        };
        Memory {
            items: self.program.items.as_slice(),
            globals: self.globals.as_slice(),
            locals,
        }
    }

    /// The words of a global, none where there is no such global.
    pub(crate) fn words(&self, item: u16) -> &[i16]
        ensures { result.now ≡ words_of self.now.state.globals item }
    {
        match self.globals.as_slice().get(usize::from(item)) {
            None => &[],
            Some(words) => words.as_slice(),
        }
    }

    pub(crate) fn set_word(&mut self, cell: Cell, word: i16)
        ensures { self.new ≡ record self.old { state = with_word cell word self.old.state } }
    {
        match cell {
            Cell::Local(place) => {
                if let Some(frames) = &mut self.frames {
                    frames.running.set_local(usize::from(place), word);
                }
            }
            Cell::Global { item, offset } => {
                let item = usize::from(item);
                if item < self.globals.len() {
                    self.globals[item].set(usize::from(offset), word);
                }
            }
        }
    }

    /// Puts words over those at the start of a global.
    pub(crate) fn set_words(&mut self, item: u16, words: &[i16])
        requires { length words.now ≤ length (words_of self.old.state.globals item) }
        ensures { self.new ≡ record self.old { state = with_words item words.now self.old.state } }
    {
        let item = usize::from(item);
        if item < self.globals.len() {
            overwrite(&mut self.globals[item], words);
        }
    }

    /// Takes the next entry away.
    pub(crate) fn done(&mut self)
        ensures { self.new ≡ record self.old { state = done self.old.state } }
    {
        if let Some(frames) = &mut self.frames {
            frames.running.drop_next();
        }
    }

    /// Puts an entry before the others.
    pub(crate) fn put(&mut self, entry: Entry<'a>) -> Result<(), NoMemory>
        ensures { OnOk result (self.new ≡ record self.old
            { state = before (entry_of entry.entry ∷ []) self.old.state }) }
    {
        if let Some(frames) = &mut self.frames {
            frames.running.put(entry)?;
        }
        Ok(())
    }

    /// Puts statements before the other entries.
    pub(crate) fn put_all(&mut self, statements: &'a [Statement]) -> Result<(), NoMemory>
        ensures { OnOk result (self.new ≡ record self.old { state = before (runs_of statements.now) self.old.state }) }
    {
        if let Some(frames) = &mut self.frames {
            frames.running.put_all(statements)?;
        }
        Ok(())
    }

    /// Enters a procedure.
    pub(crate) fn enter(
        &mut self,
        alloc: Global,
        number: u16,
        arguments: List<i16>,
        procedure: &'a Procedure,
    ) -> Result<(), NoMemory>
        ensures { OnOk result (self.new ≡ record self.old
            { state = entering number arguments procedure.now self.old.state }) }
    {
        let entered = Frame::new(alloc, number, arguments, procedure)?;
        let frames = self.frames.take();
        self.frames = Some(called(alloc, frames, entered)?);
        Ok(())
    }

    /// Leaves the procedure that runs.
    pub(crate) fn leave(&mut self)
        ensures { self.new ≡ record self.old { state = left self.old.state } }
    {
        let frames = self.frames.take();
        self.frames = caller_of(frames);
    }

    /// Whether a procedure runs, and its next entry.
    pub(crate) fn running_next(&self) -> Option<Option<Entry<'a>>>
        ensures { option_map (option_map entry_of) result
            ≡ option_map (λ frame. first_of frame.rest) (slice_get self.now.state.frames 0) }
    {
        match &self.frames {
            None => None,
            Some(frames) => Some(frames.running.next()),
        }
    }

    pub(crate) fn frames(&self) -> &Option<Frames<'a>>
        ensures { frames_of result.now ≡ self.now.state.frames }
    {
        &self.frames
    }

    pub(crate) fn program(&self) -> &'a Program
        ensures { result.now ≡ self.now.program }
    {
        self.program
    }

    /// Whether a request is in hand.
    pub fn in_hand(&self) -> bool
        ensures { result ≡ self.now.state.in_hand }
    {
        self.in_hand
    }

    pub(crate) fn awaits(&self) -> bool
        ensures { result ≡ self.now.state.awaits }
    {
        self.awaits
    }

    pub(crate) fn has_ended(&self) -> bool
        ensures { result ≡ self.now.state.ended }
    {
        self.ended
    }

    pub(crate) fn set_in_hand(&mut self, in_hand: bool)
        ensures { self.new ≡ record self.old { state = with_hand in_hand self.old.state } }
    {
        self.in_hand = in_hand;
    }

    pub(crate) fn set_awaits(&mut self, awaits: bool)
        ensures { self.new ≡ record self.old { state = with_waiting awaits self.old.state } }
    {
        self.awaits = awaits;
    }

    pub(crate) fn end(&mut self)
        ensures { self.new ≡ record self.old { state = ends self.old.state } }
    {
        self.frames = None;
        self.awaits = false;
        self.ended = true;
    }
}

fn called<'a>(
    alloc: Global,
    frames: Option<Frames<'a>>,
    running: Frame<'a>,
) -> Result<Frames<'a>, NoMemory>
    ensures { IfOk result (λ all. frames_of (Some all) ≡ running.entry ∷ frames_of frames.entry) }
{
    match frames {
        None => {
            let callers = Vec::new(alloc);
            Ok(Frames { running, callers })
        }
        Some(
            Frames {
                running: caller,
                mut callers,
            },
        ) => {
            callers.push(caller)?;
            Ok(Frames { running, callers })
        }
    }
}

fn caller_of(frames: Option<Frames<'_>>) -> Option<Frames<'_>>
    ensures { frames_of result ≡ drop 1 (frames_of frames.entry) }
{
    match frames {
        None => None,
        Some(
            Frames {
                running: _,
                mut callers,
            },
        ) => match callers.pop() {
            None => None,
            Some(running) => Some(Frames { running, callers }),
        },
    }
}

fn first_frames(alloc: Global, program: &Program) -> Result<Option<Frames<'_>>, NoMemory>
    ensures { IfOk result (λ frames. frames_of frames
        ≡ first_frames program.now.main (slice_get program.now.procedures program.now.main)) }
{
    let main = program.main;
    match program.procedures.get(usize::from(main)) {
        None => Ok(None),
        Some(procedure) => {
            let running = Frame::new(alloc, main, List::new(alloc), procedure)?;
            let callers = Vec::new(alloc);
            Ok(Some(Frames { running, callers }))
        }
    }
}
