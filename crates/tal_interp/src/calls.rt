ghost use Rattle.std.specs.Prelude.{◌≡◌, ◌≤◌, drop, length, IfSome};
ghost use Rattle.process_semantics.specs.declared.point.Point.TheVariants.{AtCheckpoint};
ghost use Rattle.process_semantics.specs.Calls.{after_answered, after_asked, after_got, after_checkpoint, after_took};
ghost use Rattle.process_semantics.specs.Calls.{answer_of, asked_file, asked_words, first_words, received};
ghost use Rattle.process_semantics.specs.Changes.{variable_cell};
ghost use Rattle.process_semantics.specs.Image.{listed_files, listed_items};
ghost use Rattle.process_semantics.specs.Points.{point_of};
ghost use Rattle.process_semantics.specs.Process.{Runs};
ghost use Rattle.process_semantics.specs.State.{count_of, rest_of, words_of};
ghost use Rattle.tal_table.specs.program_deeds.specs.Doing.{point_by};
ghost use Rattle.tal_table.specs.Places.{places, rest_at};
ghost use Rattle.tal_table.specs.Seen.{seen};

use crate::interpreter::Interpreter;
use gd_words::Words;
use process_semantics::counts::{front, good_count, where_both_good, where_good};
use process_semantics::{Asked, Cell, Point};
use tal_table::{Code, Listed, Work};
use tal_tree::Variable;

impl Interpreter {
    /// Where the program stands.
    pub(crate) fn point(&self) -> Point
        ensures { result ≡ point_of self.now.program self.now.state }
    {
        if self.has_ended() {
            return Point::Ended;
        }
        match self.node() {
            None => Point::Inner,
            Some(node) => self.point_at(&node.work),
        }
    }

    fn point_at(&self, work: &Work) -> Point
        ensures { result ≡ point_by self.now.program self.now.state (seen (places self.now.program) work.now) }
    {
        match work {
            Work::ReadUpdate { buffer, most, .. } => {
                if self.in_hand() {
                    return Point::Inner;
                }
                where_good(Point::Take, self.count(*buffer, most))
            }
            Work::WriteRead {
                buffer,
                send,
                room,
                ..
            } => {
                if self.awaits() {
                    return Point::Await;
                }
                let send = self.count(*buffer, send);
                let room = self.count(*buffer, room);
                where_both_good(Point::Ask, send, room)
            }
            Work::Reply { buffer, count } => {
                if !self.in_hand() {
                    return Point::Inner;
                }
                where_good(Point::Answer, self.count(*buffer, count))
            }
            Work::Checkpoint(_) => Point::AtCheckpoint,
            _ => Point::Inner,
        }
    }

    /// The step at Take: READUPDATE gets the words of the request that is taken.
    pub(crate) fn took(&mut self, words: &Words)
        ensures { self.new ≡ record self.old { state = after_took self.old.program self.old.state words.now } }
    {
        if let Some(node) = self.node() {
            let after = node.after;
            if let Work::ReadUpdate { buffer, most, got } = &node.work {
                let buffer = *buffer;
                let got = *got;
                let room = self.count(buffer, most);
                self.receive(buffer, got, words, room, after);
                self.set_in_hand(true);
            }
        }
    }

    /// The number of the file on which WRITEREAD stands.
    pub(crate) fn asked_file(&self) -> u8
        ensures { result ≡ asked_file self.now.state }
    {
        match self.node() {
            None => 0,
            Some(node) => match &node.work {
                Work::WriteRead { file, .. } => *file,
                _ => 0,
            },
        }
    }

    /// The step at Ask: what WRITEREAD asks. The reply is awaited from now on.
    pub(crate) fn asked(&mut self) -> Asked
        ensures file { result.file ≡ asked_file self.old.state }
        ensures words { result.words ≡ asked_words self.old.program self.old.state }
        ensures state { self.new ≡ record self.old { state = after_asked self.old.state } }
    {
        let file = self.asked_file();
        let words = self.asked_words();
        self.set_awaits(true);
        Asked { file, words }
    }

    /// The words that WRITEREAD asks.
    pub(crate) fn asked_words(&self) -> Words
        ensures { result ≡ asked_words self.now.program self.now.state }
    {
        match self.node() {
            None => Words::new(),
            Some(node) => match &node.work {
                Work::WriteRead { buffer, send, .. } => self.first_words(*buffer, send),
                _ => Words::new(),
            },
        }
    }

    /// The step at Await: WRITEREAD gets the words of the reply.
    pub(crate) fn got(&mut self, words: &Words)
        ensures { self.new ≡ record self.old { state = after_got self.old.program self.old.state words.now } }
    {
        if let Some(node) = self.node() {
            let after = node.after;
            if let Work::WriteRead {
                buffer,
                room,
                got,
                ..
            } = &node.work
            {
                let buffer = *buffer;
                let got = *got;
                let room = self.count(buffer, room);
                self.receive(buffer, got, words, room, after);
                self.set_awaits(false);
            }
        }
    }

    /// The step at Answer: the words that REPLY answers. Nothing is in hand from now on.
    pub(crate) fn answered(&mut self) -> Words
        ensures words { result ≡ answer_of self.old.program self.old.state }
        ensures state { self.new ≡ record self.old { state = after_answered self.old.state } }
    {
        let words = self.answer();
        self.checkpointed();
        self.set_in_hand(false);
        words
    }

    fn answer(&self) -> Words
        ensures { result ≡ answer_of self.now.program self.now.state }
    {
        match self.node() {
            None => Words::new(),
            Some(node) => match &node.work {
                Work::Reply { buffer, count } => self.first_words(*buffer, count),
                _ => Words::new(),
            },
        }
    }

    /// What CHECKPOINT names.
    pub(crate) fn listed(&self) -> &Listed
        requires { point_of self.now.program self.now.state ≡ AtCheckpoint }
        ensures items { result.now.items ≡ listed_items (Runs self.now.program self.now.state) }
        ensures files { result.now.files ≡ listed_files (Runs self.now.program self.now.state) }
    {
        match self.node() {
            None => unreachable!(),
            Some(node) => match &node.work {
                Work::Checkpoint(listed) => listed,
                _ => unreachable!(),
            },
        }
    }

    /// The step at a checkpoint, which goes on.
    pub(crate) fn checkpointed(&mut self)
        ensures { self.new ≡ record self.old { state = after_checkpoint self.old.state } }
    {
        if let Some(node) = self.node() {
            let after = node.after;
            self.finish(after);
        }
    }

    /// How many words of an array a count names.
    fn count(&self, buffer: u16, count: &Code) -> Option<usize>
        ensures value { result ≡ count_of self.now.program self.now.state buffer count.now }
        ensures within { IfSome result (λ n. n ≤ length (words_of self.now.state.globals buffer)) }
    {
        let count = tal_table::value(self.memory(), count)?;
        good_count(self.words(buffer), count)
    }

    /// The words at the start of an array that a count names.
    fn first_words(&self, buffer: u16, count: &Code) -> Words
        ensures { result ≡ first_words (words_of self.now.state.globals buffer)
            (count_of self.now.program self.now.state buffer count.now) }
    {
        match tal_table::value(self.memory(), count) {
            None => Words::new(),
            Some(count) => front(self.words(buffer), count),
        }
    }

    /// Puts as many words as there is room for into an array and their number into a variable, and goes on.
    fn receive(
        &mut self,
        buffer: u16,
        got: Variable,
        words: &Words,
        room: Option<usize>,
        after: u16,
    )
        requires room { IfSome room (λ n. n ≤ length (words_of self.old.state.globals buffer)) }
        requires after { rest_at (places self.old.program) after ≡ drop 1 (rest_of self.old.state.frames) }
        ensures { self.new ≡ record self.old { state = received self.old.state buffer got words.now room } }
    {
        if let Some(room) = room {
            let words = words.as_slice();
            let number = room.min(words.len());
            let (front, _) = words.split_at(number);
            self.set_words(buffer, front);
            self.set_word(variable_cell(got), number as i16);
            self.finish(after);
        }
    }
}

/// The cell of a simple variable.
fn variable_cell(variable: Variable) -> Cell
    ensures { result ≡ variable_cell variable }
{
    match variable {
        Variable::Local(local) => Cell::Local(local),
        Variable::Simple(item) => Cell::Global { item, offset: 0 },
    }
}
