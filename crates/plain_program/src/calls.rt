ghost use Rattle.std.specs.Prelude.{◌≡◌, ◌≤◌, [], length, IfOk, OnOk, IfSome};
ghost use Rattle.tal_tree.specs.declared.statement.What.{out-What};
ghost use Rattle.process_semantics.specs.State.{words_of, count_of};
ghost use Rattle.process_semantics.specs.Points.{point_in, point_of};
ghost use Rattle.process_semantics.specs.Calls.{received, took_in, got_in, first_words, file_in, asked_in, answer_in};
ghost use Rattle.process_semantics.specs.Calls.{after_took, asked_file, asked_words, after_asked, after_got, answer_of};
ghost use Rattle.process_semantics.specs.Calls.{after_answered, after_checkpoint};

use crate::execution::Execution;
use gd_words::{NoMemory, Words};
use process_semantics::counts::{front, good_count, where_both_good, where_good};
use process_semantics::{Asked, Entry, Point, variable_cell};
use std::alloc::Global;
use tal_tree::{Expr, Statement, Variable, What};
use tal_values::value;

impl<'a> Execution<'a> {
    /// Where the program stands.
    pub fn point(&self, alloc: Global) -> Result<Point, NoMemory>
        ensures { IfOk result (λ point. point ≡ point_of self.now.program self.now.state) }
    {
        if self.has_ended() {
            return Ok(Point::Ended);
        }
        match self.next() {
            Some(Entry::Run(statement)) => self.point_in(alloc, statement),
            _ => Ok(Point::Inner),
        }
    }

    fn point_in(&self, alloc: Global, statement: &Statement) -> Result<Point, NoMemory>
        ensures { IfOk result (λ point. point ≡ point_in self.now.program self.now.state
            (out-What statement.now.what)) }
    {
        match &statement.what {
            What::ReadUpdate {
                buffer,
                most,
                got: _,
            } => {
                if self.in_hand() {
                    return Ok(Point::Inner);
                }
                let most = self.count(alloc, *buffer, most)?;
                Ok(where_good(Point::Take, most))
            }
            What::WriteRead {
                file: _,
                buffer,
                send,
                room,
                got: _,
            } => {
                if self.awaits() {
                    return Ok(Point::Await);
                }
                let send = self.count(alloc, *buffer, send)?;
                let room = self.count(alloc, *buffer, room)?;
                Ok(where_both_good(Point::Ask, send, room))
            }
            What::Reply { buffer, count } => {
                if !self.in_hand() {
                    return Ok(Point::Inner);
                }
                let count = self.count(alloc, *buffer, count)?;
                Ok(where_good(Point::Answer, count))
            }
            What::Checkpoint { items: _, files: _ } => Ok(Point::AtCheckpoint),
            _ => Ok(Point::Inner),
        }
    }

    /// The step at Take: READUPDATE gets the words of the request that is taken.
    pub fn took(&mut self, alloc: Global, words: &Words) -> Result<(), NoMemory>
        ensures { OnOk result (self.new ≡ record self.old
            { state = after_took self.old.program self.old.state words.now }) }
    {
        if let Some(Entry::Run(statement)) = self.next() {
            self.took_in(alloc, statement, words)?;
        }
        Ok(())
    }

    fn took_in(
        &mut self,
        alloc: Global,
        statement: &Statement,
        words: &Words,
    ) -> Result<(), NoMemory>
        ensures { OnOk result (self.new ≡ record self.old
            { state = took_in self.old.program self.old.state words.now (out-What statement.now.what) }) }
    {
        if let What::ReadUpdate { buffer, most, got } = &statement.what {
            let room = self.count(alloc, *buffer, most)?;
            self.receive(*buffer, *got, words, room);
            self.set_in_hand(true);
        }
        Ok(())
    }

    /// The step at Ask: what WRITEREAD asks. The reply is awaited from now on.
    pub fn asked(&mut self, alloc: Global) -> Result<Asked, NoMemory>
        ensures file { IfOk result (λ asked. asked.file ≡ asked_file self.old.state) }
        ensures words { IfOk result (λ asked. asked.words ≡ asked_words self.old.program self.old.state) }
        ensures state { OnOk result (self.new ≡ record self.old { state = after_asked self.old.state }) }
    {
        let asked = match self.next() {
            Some(Entry::Run(statement)) => self.asked_in(alloc, statement)?,
            _ => Asked::nothing(),
        };
        self.set_awaits(true);
        Ok(asked)
    }

    /// The number of the file on which WRITEREAD stands.
    pub fn asked_file(&self) -> u8
        ensures { result ≡ asked_file self.now.state }
    {
        match self.next() {
            Some(Entry::Run(statement)) => file_in(statement),
            _ => 0,
        }
    }

    fn asked_in(&self, alloc: Global, statement: &Statement) -> Result<Asked, NoMemory>
        ensures file { IfOk result (λ asked. asked.file ≡ file_in (out-What statement.now.what)) }
        ensures words { IfOk result (λ asked. asked.words
            ≡ asked_in self.now.program self.now.state (out-What statement.now.what)) }
    {
        match &statement.what {
            What::WriteRead {
                file,
                buffer,
                send,
                room: _,
                got: _,
            } => {
                let words = self.first_words(alloc, *buffer, send)?;
                let file = *file;
                Ok(Asked { file, words })
            }
            _ => Ok(Asked::nothing()),
        }
    }

    /// The step at Await: WRITEREAD gets the words of the reply.
    pub fn got(&mut self, alloc: Global, words: &Words) -> Result<(), NoMemory>
        ensures { OnOk result (self.new ≡ record self.old
            { state = after_got self.old.program self.old.state words.now }) }
    {
        if let Some(Entry::Run(statement)) = self.next() {
            self.got_in(alloc, statement, words)?;
        }
        Ok(())
    }

    fn got_in(
        &mut self,
        alloc: Global,
        statement: &Statement,
        words: &Words,
    ) -> Result<(), NoMemory>
        ensures { OnOk result (self.new ≡ record self.old
            { state = got_in self.old.program self.old.state words.now (out-What statement.now.what) }) }
    {
        if let What::WriteRead {
            file: _,
            buffer,
            send: _,
            room,
            got,
        } = &statement.what
        {
            let room = self.count(alloc, *buffer, room)?;
            self.receive(*buffer, *got, words, room);
            self.set_awaits(false);
        }
        Ok(())
    }

    /// The step at Answer: the words that REPLY answers. Nothing is in hand from now on.
    pub fn answered(&mut self, alloc: Global) -> Result<Words, NoMemory>
        ensures words { IfOk result (λ words. words ≡ answer_of self.old.program self.old.state) }
        ensures state { OnOk result (self.new ≡ record self.old { state = after_answered self.old.state }) }
    {
        let words = match self.next() {
            Some(Entry::Run(statement)) => self.answer_in(alloc, statement)?,
            _ => Words::new(),
        };
        self.done();
        self.set_in_hand(false);
        Ok(words)
    }

    fn answer_in(&self, alloc: Global, statement: &Statement) -> Result<Words, NoMemory>
        ensures { IfOk result (λ words. words ≡ answer_in self.now.program self.now.state
            (out-What statement.now.what)) }
    {
        match &statement.what {
            What::Reply { buffer, count } => self.first_words(alloc, *buffer, count),
            _ => Ok(Words::new()),
        }
    }

    /// The step at a checkpoint.
    pub fn checkpointed(&mut self)
        ensures { self.new ≡ record self.old { state = after_checkpoint self.old.state } }
    {
        self.done();
    }

    /// How many words of an array a count names.
    fn count(&self, alloc: Global, buffer: u16, count: &Expr) -> Result<Option<usize>, NoMemory>
        ensures value { IfOk result (λ n. n ≡ count_of self.now.program self.now.state buffer count.now) }
        ensures within { IfOk result (λ n. IfSome n (λ n. n ≤ length (words_of self.now.state.globals buffer))) }
    {
        match value(alloc, self.memory(), count)? {
            None => Ok(None),
            Some(count) => Ok(good_count(self.words(buffer), count)),
        }
    }

    /// The words at the start of an array that a count names.
    fn first_words(&self, alloc: Global, buffer: u16, count: &Expr) -> Result<Words, NoMemory>
        ensures { IfOk result (λ words. words ≡ first_words (words_of self.now.state.globals buffer)
            (count_of self.now.program self.now.state buffer count.now)) }
    {
        let words = self.words(buffer);
        match value(alloc, self.memory(), count)? {
            None => Ok(Words::new()),
            Some(count) => Ok(front(words, count)),
        }
    }

    fn receive(&mut self, buffer: u16, got: Variable, words: &Words, room: Option<usize>)
        requires { IfSome room (λ n. n ≤ length (words_of self.old.state.globals buffer)) }
        ensures { self.new ≡ record self.old { state = received self.old.state buffer got words.now room } }
    {
        if let Some(room) = room {
            let words = words.as_slice();
            let number = room.min(words.len());
            let (front, _) = words.split_at(number);
            self.set_words(buffer, front);
            self.set_word(variable_cell(got), number as i16);
            self.done();
        }
    }
}

fn file_in(statement: &Statement) -> u8
    ensures { result ≡ file_in (out-What statement.now.what) }
{
    match &statement.what {
        What::WriteRead {
            file,
            buffer: _,
            send: _,
            room: _,
            got: _,
        } => *file,
        _ => 0,
    }
}
