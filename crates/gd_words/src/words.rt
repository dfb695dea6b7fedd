ghost use Rattle.std.specs.Prelude.{◌≡◌, ◌<◌, ◌≤◌, ◌↔◌, [], ◌∷◌, ◌++◌, length, slice_get, IsOk, OnOk, OnErr, IfErr};
ghost use Rattle.gd_words.specs.declared.limits.TheConstants.{MOST_MESSAGE_WORDS};

use crate::limits::MOST_MESSAGE_WORDS;
use arrayvec::ArrayVec;
use std::marker::Model;

/// The words of a request or a reply: at most 16.
#[derive(Drop)]
pub struct Words {
    items: ArrayVec<i16, MOST_MESSAGE_WORDS>,
}

impl Model for Words {
    ghost use Rattle.std.specs.Prelude.{List, ℤ};

    ghost Value = { List ℤ };

    ghost view = { λ words. words.items.items };
}

impl Words {
    /// No words.
    pub fn new() -> Words
        ensures { result ≡ [] }
    {
        Words {
            items: ArrayVec::new(),
        }
    }

    /// Puts one word after the last, or gives it back where 16 are there.
    pub fn push(&mut self, word: i16) -> Result<(), i16>
        ensures room { IsOk result ↔ (length self.old < MOST_MESSAGE_WORDS) }
        ensures ok { OnOk result (self.new ≡ self.old ++ word ∷ []) }
        ensures err { OnErr result (self.new ≡ self.old) }
        ensures back { IfErr result (λ back. back ≡ word) }
    {
        match self.items.try_push(word) {
            Ok(()) => Ok(()),
            Err(full) => Err(full.element()),
        }
    }

    /// The word at place `k`, counted from 0.
    pub fn get(&self, k: usize) -> Option<i16>
        ensures { result ≡ slice_get self.now k }
    {
        self.items.as_slice().get(k).copied()
    }

    /// How many words there are.
    pub fn len(&self) -> usize
        ensures value { result ≡ length self.now }
        ensures few { result ≤ MOST_MESSAGE_WORDS }
    {
        self.items.len()
    }

    /// All words, in order.
    pub fn as_slice(&self) -> &[i16]
        ensures value { result.now ≡ self.now }
        ensures few { length result.now ≤ MOST_MESSAGE_WORDS }
    {
        self.items.as_slice()
    }

    /// The same words once more. It takes no memory.
    pub fn copy(&self) -> Words
        ensures { result ≡ self.now }
    {
        Words {
            items: self.items.clone().unwrap(),
        }
    }
}
