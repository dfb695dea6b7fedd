ghost use Rattle.std.specs.Prelude.{◌≡◌, ◌&&◌, ◌||◌, not, IfOk};
ghost use Rattle.message_wires.specs.letters.specs.Posts.{is_from_or_to};
ghost use Rattle.message_wires.specs.letters.specs.Routes.{is_between};
ghost use Rattle.message_wires.specs.Wires.{is_sending};
ghost use Rattle.message_wires.specs.world_semantics.specs.World.{is_running};

use gd_words::NoMemory;
use sendings::{Letter, is_running};
use std::marker::Model;

/// A packet on the bus, or a letter that is owed: a letter with the number of its sending.
#[derive(Drop)]
pub struct Sent {
    number: u64,
    letter: Letter,
}

impl Model for Sent {
    ghost use Rattle.std.specs.Coded.{codes};
    ghost use Rattle.message_wires.specs.Wires as wires;

    ghost Value = { wires.Sent };

    ghost coded = { Prim.hlevel codes };

    ghost view = { λ sent. record { number = sent.number; letter = sent.letter } };
}

impl Sent {
    pub(crate) fn new(number: u64, letter: Letter) -> Sent
        ensures { result ≡ record { number = number; letter = letter } }
    {
        Sent { number, letter }
    }

    /// The number of the sending. A message that is sent again has a new one.
    pub fn number(&self) -> u64
        ensures { result ≡ self.now.number }
    {
        self.number
    }

    /// The node that sent the letter.
    pub fn sender(&self) -> u8
        ensures { result ≡ self.now.letter.sender }
    {
        self.letter.sender()
    }

    /// The node to which the letter goes.
    pub fn receiver(&self) -> u8
        ensures { result ≡ self.now.letter.receiver }
    {
        self.letter.receiver()
    }

    /// The letter.
    pub fn into_letter(self) -> Letter
        ensures { result ≡ self.letter }
    {
        let Sent { number: _, letter } = self;
        letter
    }

    pub(crate) fn copy(&self) -> Result<Sent, NoMemory>
        ensures { IfOk result (λ sent. sent ≡ self.now) }
    {
        let letter = self.letter.copy()?;
        Ok(Sent {
            number: self.number,
            letter,
        })
    }

    pub(crate) fn is_sending(&self, number: u64) -> bool
        ensures { result ≡ is_sending number self.now }
    {
        self.number == number
    }

    pub(crate) fn is_between(&self, one: u8, other: u8) -> bool
        ensures { result ≡ is_between one other self.now.letter }
    {
        let sender = self.letter.sender();
        let receiver = self.letter.receiver();
        (sender == one && receiver == other) || (sender == other && receiver == one)
    }

    /// Whether the letter is from a node or to it.
    pub(crate) fn is_from_or_to(&self, node: u8) -> bool
        ensures { result ≡ is_from_or_to node self.now.letter }
    {
        self.letter.sender() == node || self.letter.receiver() == node
    }

    /// Whether both its nodes run.
    pub(crate) fn is_open(&self, stopped: &[bool]) -> bool
        ensures { result ≡ (is_running stopped.now self.now.letter.sender
            && is_running stopped.now self.now.letter.receiver) }
    {
        is_running(stopped, self.letter.sender()) && is_running(stopped, self.letter.receiver())
    }
}
