ghost use Rattle.std.specs.Prelude.{◌≡◌, ◌≤◌, ◌∷◌, [], false, drop, length, IfSome};
ghost use Rattle.std.specs.Bool.{OnTrue, OnFalse};
ghost use Rattle.process_semantics.specs.tal_values.specs.Seen.{memory_now};
ghost use Rattle.process_semantics.specs.Changes.{left};
ghost use Rattle.process_semantics.specs.Steps.{state_after_entry, inner, or_ends, result_of, values_of};
ghost use Rattle.tal_table.specs.program_deeds.specs.Doing.{caller_given, state_after_test, gives_back};
ghost use Rattle.tal_table.specs.program_deeds.specs.Doing.{state_after_store};
ghost use Rattle.tal_table.specs.Places.{places, rest_at};
ghost use Rattle.gd_words.specs.declared.limits.TheConstants.{MOST_LOCALS};

use crate::frame::Frame;
use crate::interpreter::Interpreter;
use crate::locals::Locals;
use process_semantics::{Cell, Memory};
use std::mem;
use tal_table::{Code, Work};

impl Interpreter {
    /// The step at the point Inner. A trap ends the program.
    pub(crate) fn inner(&mut self)
        requires { length self.old.state.frames ≤ length self.old.program.procedures }
        ensures { self.new ≡ record self.old { state = inner self.old.program self.old.state } }
    {
        let Some(node) = self.node() else {
            self.give_back(Some(0));
            return;
        };
        match &node.work {
            Work::Assign { to, value, next } => {
                let next = *next;
                let memory = self.memory();
                let word = tal_table::value(memory, value);
                let cell = tal_table::cell(memory, to);
                self.store(cell, word, next);
            }
            Work::Test { test, yes, no } => {
                let yes = *yes;
                let no = *no;
                let holds = tal_table::truth(self.memory(), test);
                self.choose(holds, yes, no);
            }
            Work::Call {
                procedure,
                arguments,
                ..
            } => {
                let procedure = *procedure;
                let words = values(self.memory(), arguments.as_slice());
                self.call(procedure, words);
            }
            Work::Return(value) => {
                let word = returned(self.memory(), value);
                self.give_back(word);
            }
            Work::Pass => {
                let after = node.after;
                self.finish(after);
            }
            _ => self.end(),
        }
    }

    /// Puts a word into a cell and goes on at a number, where neither traps.
    fn store(&mut self, to: Option<Cell>, word: Option<i16>, next: u16)
        ensures { self.new ≡ record self.old {
          state =
              or_ends self.old.state (state_after_store (rest_at (places self.old.program) next)
              self.old.state to word);
        } }
    {
        match word {
            None => self.end(),
            Some(word) => match to {
                None => self.end(),
                Some(cell) => {
                    self.set_word(cell, word);
                    self.go(next);
                }
            },
        }
    }

    /// Goes on at one number where a test is true, at the other where it is false.
    fn choose(&mut self, holds: Option<bool>, yes: u16, no: u16)
        ensures { self.new ≡ record self.old {
          state =
              or_ends self.old.state (state_after_test (rest_at (places self.old.program) yes)
              (rest_at (places self.old.program) no) self.old.state holds);
        } }
    {
        match holds {
            None => self.end(),
            Some(true) => self.go(yes),
            Some(false) => self.go(no),
        }
    }

    /// Enters a procedure, where no argument traps.
    fn call(&mut self, procedure: u16, arguments: Option<Locals>)
        requires runs { self.old.state.ended ≡ false }
        requires frames { length self.old.state.frames ≤ length self.old.program.procedures }
        requires few { IfSome arguments (λ words. length words ≤ MOST_LOCALS) }
        ensures { self.new ≡ record self.old {
          state =
              or_ends self.old.state (state_after_entry self.old.program self.old.state procedure arguments);
        } }
    {
        match arguments {
            None => self.end(),
            Some(mut locals) => match self.table.heading(procedure) {
                None => self.end(),
                Some(heading) => {
                    locals.fill(usize::from(heading.locals));
                    self.enter(procedure, heading.first, locals);
                }
            },
        }
    }

    /// Runs a procedure from a number on, and what ran becomes its caller.
    fn enter(&mut self, procedure: u16, first: u16, locals: Locals)
        requires runs { self.old.state.ended ≡ false }
        requires frames { length self.old.state.frames ≤ length self.old.program.procedures }
        ensures { self.new ≡ record self.old {
          state =
              record self.old.state {
                frames = record
                    { procedure = procedure; locals = locals; rest = rest_at (places self.old.program) first }
                    ∷ self.old.state.frames;
              };
        } }
    {
        let entered = Frame {
            procedure,
            at: first,
            locals,
        };
        if let Some(caller) = mem::replace(&mut self.running, Some(entered)) {
            self.callers.push_reserved(caller);
        }
    }

    /// Gives a word back to the caller. Where there is none, the program ends.
    fn give_back(&mut self, word: Option<i16>)
        ensures { self.new ≡ record self.old {
          state =
              or_ends self.old.state (gives_back self.old.program self.old.state word);
        } }
    {
        match word {
            None => self.end(),
            Some(word) => {
                if self.leave() {
                    self.give(word);
                } else {
                    self.end();
                }
            }
        }
    }

    /// Goes back to the caller, and answers whether there was one.
    fn leave(&mut self) -> bool
        ensures left { OnTrue result (self.new ≡ record self.old { state = left self.old.state }) }
        ensures runs { OnTrue result (1 ≤ length self.new.state.frames) }
        ensures kept { OnFalse result (self.new ≡ self.old) }
        ensures last { OnFalse result (drop 1 self.old.state.frames ≡ []) }
    {
        if self.running.is_none() {
            return false;
        }
        match self.callers.pop() {
            None => false,
            Some(caller) => {
                self.running = Some(caller);
                true
            }
        }
    }

    /// A call gets its word: an assignment keeps it.
    fn give(&mut self, word: i16)
        requires { 1 ≤ length self.old.state.frames }
        ensures { self.new ≡ record self.old {
          state =
              or_ends self.old.state (caller_given self.old.program word self.old.state self.old.state.frames);
        } }
    {
        if let Some(node) = self.node() {
            let after = node.after;
            match &node.work {
                Work::Call { to: Some(to), .. } => {
                    let cell = tal_table::cell(self.memory(), to);
                    self.store(cell, Some(word), after);
                }
                _ => self.finish(after),
            }
        }
    }
}

/// The values of arguments, from left to right.
fn values(memory: Memory<'_>, arguments: &[Code]) -> Option<Locals>
    requires { length arguments.now ≤ MOST_LOCALS }
    ensures words { result ≡ values_of (memory_now memory.entry) arguments.now }
    ensures few { IfSome result (λ words. length words ≤ MOST_LOCALS) }
{
    let mut words = Locals::new();
    for argument in arguments {
        words.push(tal_table::value(memory, argument)?);
    }
    Some(words)
}

/// The word that a RETURN gives.
fn returned(memory: Memory<'_>, value: &Option<Code>) -> Option<i16>
    ensures { result ≡ result_of (memory_now memory.entry) value.now }
{
    match value {
        None => Some(0),
        Some(value) => tal_table::value(memory, value),
    }
}
