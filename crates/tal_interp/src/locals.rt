ghost use Rattle.std.specs.Prelude.{◌≡◌, ◌-◌, ◌≤◌, ◌<◌, [], ◌∷◌, ◌++◌, length, slice_set};
ghost use Rattle.process_semantics.specs.State.{zeros};
ghost use Rattle.gd_words.specs.declared.limits.TheConstants.{MOST_LOCALS};

use arrayvec::ArrayVec;
use gd_words::limits::MOST_LOCALS;
use std::marker::Model;

/// The words of a procedure's locals, of which there are at most 12.
#[derive(Drop)]
pub(crate) struct Locals {
    words: ArrayVec<i16, MOST_LOCALS>,
}

impl Model for Locals {
    ghost use Rattle.std.specs.Prelude.{ℤ, List};

    ghost Value = { List ℤ };

    ghost view = { λ locals. locals.words.items };
}

impl Locals {
    pub(crate) fn new() -> Locals
        ensures { result ≡ [] }
    {
        Locals {
            words: ArrayVec::new(),
        }
    }

    pub(crate) fn as_slice(&self) -> &[i16]
        ensures { result.now ≡ self.now }
    {
        self.words.as_slice()
    }

    pub(crate) fn push(&mut self, word: i16)
        requires { length self.old < MOST_LOCALS }
        ensures { self.new ≡ self.old ++ word ∷ [] }
    {
        self.words.push(word);
    }

    /// Sets a local, where it is there.
    pub(crate) fn set(&mut self, place: usize, word: i16)
        ensures { self.new ≡ slice_set self.old place word }
    {
        if place < self.words.len() {
            self.words[place] = word;
        }
    }

    /// Puts zeros behind the words until there are so many.
    pub(crate) fn fill(&mut self, len: usize)
        requires { len ≤ MOST_LOCALS }
        ensures { self.new ≡ self.old ++ zeros (len - length self.old) }
    {
        for _ in 0..len.saturating_sub(self.words.len()) {
            self.words.push(0);
        }
    }
}
