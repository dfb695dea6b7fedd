ghost use Rattle.std.specs.Prelude.{◌≡◌, ◌+◌, ◌*◌, ◌≤◌, [], ◌++◌, length};
ghost use Rattle.std.specs.Fmt.{signed_decimal};
ghost use Rattle.trace_print.specs.NumbersText.{numbers_text, words_text};

use arrayvec::ArrayVec;
use gd_words::decimal_of;
use std::marker::Model;

/// The bytes of a line that is being written, of at most 512.
#[derive(Drop)]
pub struct Line {
    bytes: ArrayVec<u8, 512>,
}

impl Model for Line {
    ghost use Rattle.std.specs.Prelude.{List, ℕ};

    ghost Value = { List ℕ };

    ghost view = { λ line. line.bytes.items };
}

impl Line {
    /// An empty line.
    pub fn new() -> Line
        ensures { result ≡ [] }
    {
        Line {
            bytes: ArrayVec::new(),
        }
    }

    /// What is written so far.
    pub fn bytes(&self) -> &[u8]
        ensures { result.now ≡ self.now }
    {
        self.bytes.as_slice()
    }

    /// Writes a text.
    pub fn push(&mut self, text: &[u8])
        requires { length self.old + length text.now ≤ 512 }
        ensures text { self.new ≡ self.old ++ text.now }
        ensures len { length self.new ≡ length self.old + length text.now }
    {
        for byte in text {
            self.bytes.push(*byte);
        }
    }

    /// Writes a number, in at most 20 bytes.
    pub fn number(&mut self, value: i64)
        requires { length self.old + 20 ≤ 512 }
        ensures text { self.new ≡ self.old ++ signed_decimal value }
        ensures len { length self.new ≤ length self.old + 20 }
    {
        self.push(decimal_of(value).bytes());
    }

    /// Writes words, a space before each.
    pub fn words(&mut self, words: &[i16])
        requires { length self.old + 21 * length words.now ≤ 512 }
        ensures text { self.new ≡ self.old ++ words_text words.now }
        ensures len { length self.new ≤ length self.old + 21 * length words.now }
    {
        for word in words {
            self.push(b" ");
            self.number(i64::from(*word));
        }
    }

    /// Writes numbers, a space before each.
    pub fn numbers(&mut self, numbers: &[u32])
        requires { length self.old + 21 * length numbers.now ≤ 512 }
        ensures text { self.new ≡ self.old ++ numbers_text numbers.now }
        ensures len { length self.new ≤ length self.old + 21 * length numbers.now }
    {
        for number in numbers {
            self.push(b" ");
            self.number(i64::from(*number));
        }
    }
}
