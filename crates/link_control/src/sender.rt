ghost use Rattle.std.specs.Prelude.{◌≡◌, ◌<◌, ◌≤◌, ◌+◌, true, length, slice_get, OnOk, OnErr};
ghost use Rattle.std.specs.Option.{option_copied};
ghost use Rattle.packet_words.specs.gd_words.specs.Ranges.{HasNext};
ghost use Rattle.link_control.specs.Ends.{Sending, idle_after, new_sending, is_idle, after_push_of, is_ended_by};
ghost use Rattle.link_control.specs.Ends.{after_acknowledgement, is_sent_again, after_tick_of, piece_of, moved_on};

use packet_words::{BusName, List, NoMemory, Piece, cut};
use std::alloc::Global;
use std::collections::VecDeque;
use std::marker::Model;

/// The sender's end of one direction: the messages that aren't acknowledged whole, and which piece of the first is
/// outstanding. Each piece is cut anew when its packet goes out.
#[derive(Drop)]
pub struct Sender {
    queue: VecDeque<List<i16>>,
    place: u32,
    numbered: u32,
    waited: bool,
    resend_bus: BusName,
}

impl Model for Sender {
    ghost use Rattle.std.specs.Prelude.{◌≤◌};
    ghost use Rattle.link_control.specs.Ends.{Sending};

    ghost Value = { Sending };

    ghost view = { λ s. record {
      queue = s.queue.items;
      place = s.place;
      numbered = s.numbered;
      waited = s.waited;
      resend_bus = s.resend_bus;
    } };

    ghost invariant = { λ s. s.place ≤ s.numbered };
}

impl Sender {
    /// Nothing pushed yet.
    pub fn new(alloc: Global) -> Sender
        ensures { result ≡ idle_after 0 }
    {
        Sender {
            queue: VecDeque::new(alloc),
            place: 0,
            numbered: 0,
            waited: false,
            resend_bus: BusName::Y,
        }
    }

    /// Whether nothing is outstanding or queued.
    pub fn is_idle(&self) -> bool
        ensures { result ≡ is_idle self.now }
    {
        self.queue.is_empty()
    }

    /// The outstanding piece.
    pub fn piece(&self) -> Option<Piece>
        ensures { result ≡ piece_of self.now.queue self.now.place }
    {
        let message = self.queue.front()?;
        cut(message.as_slice(), self.place)
    }

    /// How many pieces were numbered so far, which is the number of the outstanding one.
    pub fn numbered(&self) -> u32
        ensures { result ≡ self.now.numbered }
    {
        self.numbered
    }

    /// Which piece of the oldest message is outstanding, from 0.
    pub fn place(&self) -> u32
        ensures { result ≡ self.now.place }
    {
        self.place
    }

    /// How many messages aren't acknowledged whole.
    pub fn count(&self) -> usize
        ensures { result ≡ length self.now.queue }
    {
        self.queue.len()
    }

    /// The message at a place among these, the oldest at 0.
    pub fn message(&self, place: usize) -> Option<&List<i16>>
        ensures { option_copied result ≡ slice_get self.now.queue place }
    {
        self.queue.get(place)
    }

    /// The bus over which the outstanding piece is sent again next.
    pub fn resend_bus(&self) -> BusName
        ensures { result ≡ self.now.resend_bus }
    {
        self.resend_bus
    }

    /// Takes a message. Without memory nothing changes.
    pub fn push(&mut self, message: List<i16>) -> Result<(), NoMemory>
        requires { is_idle self.old ≡ true → HasNext self.old.numbered }
        ensures after { OnOk result (self.new ≡ after_push_of message self.old) }
        ensures err { OnErr result (self.new ≡ self.old) }
    {
        let was_idle = self.is_idle();
        self.queue.push_back(message)?;
        if was_idle {
            self.begin();
        }
        Ok(())
    }

    /// Takes an acknowledgement; whether it ended the outstanding piece.
    pub fn acknowledge(&mut self, number: u32) -> bool
        requires { HasNext self.old.numbered }
        ensures ended { result ≡ is_ended_by number self.old }
        ensures after { self.new ≡ after_acknowledgement number self.old }
    {
        if !self.queue.is_empty() && number == self.numbered {
            self.move_on();
            true
        } else {
            false
        }
    }

    /// Takes a tick; whether it sends the outstanding piece again.
    pub fn tick(&mut self) -> bool
        ensures again { result ≡ is_sent_again self.old }
        ensures after { self.new ≡ after_tick_of self.old }
    {
        if self.queue.is_empty() {
            false
        } else if self.waited {
            self.resend_bus = self.resend_bus.other();
            true
        } else {
            self.waited = true;
            false
        }
    }

    /// Throws the messages away.
    pub fn clear(&mut self)
        ensures { self.new ≡ idle_after self.old.numbered }
    {
        self.queue.clear();
        self.place = 0;
        self.waited = false;
        self.resend_bus = BusName::Y;
    }

    fn begin(&mut self)
        requires { HasNext self.old.numbered }
        ensures { self.new ≡ new_sending self.old.queue self.old.numbered }
    {
        if !self.queue.is_empty() {
            self.numbered += 1;
        }
        self.place = 0;
        self.waited = false;
        self.resend_bus = BusName::Y;
    }

    fn move_on(&mut self)
        requires { HasNext self.old.numbered }
        ensures { self.new ≡ moved_on self.old.queue self.old }
    {
        let Some(message) = self.queue.front() else {
            return;
        };
        if 10 * (self.place as usize + 1) < message.len() {
            self.numbered += 1;
            self.place += 1;
            self.waited = false;
            self.resend_bus = BusName::Y;
        } else {
            self.queue.pop_front();
            self.begin();
        }
    }
}
