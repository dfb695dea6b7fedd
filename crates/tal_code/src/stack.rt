ghost use Rattle.std.specs.Prelude.{◌≡◌, ◌<◌, ◌∷◌, length, drop};
ghost use Rattle.tal_code.specs.Words.{first_word, no_words};

use std::marker::Model;

/// The words that code works on: the one on top, and at most 80 below it. None is a trap.
#[derive(Drop)]
pub struct Stack {
    top: Option<i16>,
    slots: [Option<i16>; 80],
    count: usize,
}

impl Model for Stack {
    ghost use Rattle.std.specs.Prelude.{◌≤◌, reverse, take};
    ghost use Rattle.tal_code.specs.Words as words;

    ghost Value = { words.WordStack };

    ghost view = { λ s. record { top = s.top; below = reverse (take s.count s.slots) } };

    ghost invariant = { λ s. s.count ≤ 80 };
}

impl Stack {
    /// Nothing but a top that is no word.
    pub fn new() -> Stack
        ensures { result ≡ no_words }
    {
        Stack {
            top: None,
            slots: [None; 80],
            count: 0,
        }
    }

    /// The word on top.
    pub fn top(&self) -> Option<i16>
        ensures { result ≡ self.now.top }
    {
        self.top
    }

    /// Puts another word in the place of the one on top.
    pub fn set_top(&mut self, word: Option<i16>)
        ensures { self.new ≡ record self.old { top = word } }
    {
        self.top = word;
    }

    /// Puts a word on top of the others.
    pub fn push(&mut self, word: Option<i16>)
        requires { length self.old.below < 80 }
        ensures { self.new ≡ record { top = word; below = self.old.top ∷ self.old.below } }
    {
        self.slots[self.count] = self.top;
        self.count += 1;
        self.top = word;
    }

    /// Takes the word below the top away.
    pub fn take_below(&mut self) -> Option<i16>
        ensures first { result ≡ first_word self.old.below }
        ensures rest { self.new ≡ record self.old { below = drop 1 self.old.below } }
    {
        if self.count == 0 {
            return None;
        }
        self.count -= 1;
        self.slots[self.count]
    }
}
