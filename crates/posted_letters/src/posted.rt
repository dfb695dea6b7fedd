ghost use Rattle.std.specs.Prelude.{◌≡◌, length, slice_get, slice_set, IfOk, OnOk};
ghost use Rattle.message_wires.specs.Idle.{none_owed};
ghost use Rattle.message_wires.specs.Wires.{is_current, paid, paid_between, count_before, wires_after_post};
ghost use Rattle.message_wires.specs.Wires.{wires_after_reload, wires_again, wires_at_boot, without_packet};
ghost use Rattle.gd_words.specs.Ranges.{HasNextLong};
ghost use Rattle.posted_letters.specs.Repeats.{IsRepeated};

use crate::bus::Bus;
use crate::owed::place_of;
use crate::sent::Sent;
use gd_words::NoMemory;
use sendings::Letter;
use std::alloc::Global;
use std::marker::Model;

/// The wires: the packets on the bus, at most 4,096 of them, the letters that are owed, and of each processor how many
/// letters were sent before it was loaded last.
#[derive(Drop)]
pub struct PostedLetters {
    count: u64,
    bus: Bus,
    owed: Vec<Sent>,
    before: Vec<u64>,
}

impl Model for PostedLetters {
    ghost use Rattle.std.specs.Coded.{codes};
    ghost use Rattle.message_wires.specs.Wires as wires;
    ghost use Rattle.posted_letters.specs.Rising.{RisesWithin};

    ghost Value = { wires.Wires };

    ghost coded = { Prim.hlevel codes };

    ghost view = { λ all. record {
      count = all.count;
      bus = all.bus;
      owed = all.owed.items;
      before = all.before.items;
    } };

    ghost invariant = { λ all. RisesWithin 0 all.count all.owed.items };
}

impl PostedLetters {
    /// Nothing was sent. The allocator is kept for what will be.
    pub fn new(alloc: Global, processors: u8) -> Result<PostedLetters, NoMemory>
        ensures { IfOk result (λ all. all ≡ wires_at_boot processors) }
    {
        let before = vec![in alloc; 0; usize::from(processors)]?;
        Ok(PostedLetters {
            count: 0,
            bus: Bus::new(alloc),
            owed: Vec::new(alloc),
            before,
        })
    }

    /// How many packets are on the bus.
    pub fn packets(&self) -> u32
        ensures { result ≡ length self.now.bus }
    {
        self.bus.len() as u32
    }

    /// Sends a letter: it is owed, and a packet of it goes to the bus. The number of its sending has a successor.
    pub fn post(&mut self, letter: Letter) -> Result<(), NoMemory>
        requires { HasNextLong self.old.count }
        ensures { OnOk result (self.new ≡ wires_after_post letter self.old) }
    {
        let number = self.count;
        let packet = letter.copy()?;
        self.bus.put(Sent::new(number, packet))?;
        self.owed.push(Sent::new(number, letter))?;
        self.count = number + 1;
        Ok(())
    }

    /// Takes the packet at a position off the bus.
    pub fn take(&mut self, k: usize) -> Option<Sent>
        ensures packet { result ≡ slice_get self.old.bus k }
        ensures rest { self.new ≡ without_packet k self.old }
    {
        self.bus.take(k)
    }

    /// Puts the packet at a position on the bus once more. Answers whether there is one.
    pub fn repeat(&mut self, k: usize) -> Result<bool, NoMemory>
        ensures { IfOk result (λ there. IsRepeated (slice_get self.old.bus k) self.old there self.new) }
    {
        match self.bus.get(k) {
            None => Ok(false),
            Some(packet) => {
                let packet = packet.copy()?;
                self.bus.put(packet)?;
                Ok(true)
            }
        }
    }

    /// The letter of this sending was handed over, and is owed no more.
    pub fn pay(&mut self, number: u64)
        ensures { self.new ≡ paid number self.old }
    {
        if let Some(place) = place_of(self.owed.as_slice(), number) {
            drop(self.owed.remove(place));
        }
    }

    /// What is between two nodes is owed no more.
    pub fn pay_between(&mut self, one: u8, other: u8)
        ensures { self.new ≡ paid_between one other self.old }
    {
        self.owed.retain(|sent| !sent.is_between(one, other));
    }

    /// A processor is loaded again: what is from it or to it is owed no more, and what of that is on the bus counts as
    /// old.
    pub fn reload(&mut self, processor: u8)
        ensures { self.new ≡ wires_after_reload processor self.old }
    {
        self.owed.retain(|sent| !sent.is_from_or_to(processor));
        self.note_load(processor);
    }

    /// Notes of a processor that is loaded how many letters were sent before.
    fn note_load(&mut self, processor: u8)
        ensures { self.new ≡ record self.old { before = slice_set self.old.before processor self.old.count } }
    {
        let place = usize::from(processor);
        if place < self.before.len() {
            self.before[place] = self.count;
        }
    }

    /// Whether a letter was sent since its sender and its receiver were loaded last.
    pub fn is_current(&self, one: &Sent) -> bool
        ensures { result ≡ is_current self.now.before one.now }
    {
        self.count_before(one.sender()) <= one.number()
            && self.count_before(one.receiver()) <= one.number()
    }

    /// How many letters were sent before a node was loaded last.
    fn count_before(&self, node: u8) -> u64
        ensures { result ≡ count_before self.now.before node }
    {
        match self.before.get(usize::from(node)) {
            None => 0,
            Some(count) => *count,
        }
    }

    /// A tick of a node: what it sent is put on the bus again, where it is owed, its receiver runs and no packet of it
    /// is there.
    pub fn put_again(&mut self, stopped: &[bool], node: u8) -> Result<(), NoMemory>
        ensures { OnOk result (self.new ≡ wires_again stopped.now node self.old) }
    {
        self.bus.put_again(stopped, node, self.owed.as_slice())
    }

    /// Whether nothing is owed between nodes that run.
    pub fn none_owed(&self, stopped: &[bool]) -> bool
        ensures { result ≡ none_owed stopped.now self.now.owed }
    {
        self.owed.iter().all(|one| !one.is_open(stopped))
    }
}
