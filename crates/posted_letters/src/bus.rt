ghost use Rattle.std.specs.Prelude.{◌≡◌, ◌≤◌, if◌then◌else◌, [], length, map, slice_get, IfOk, OnOk};
ghost use Rattle.std.specs.List.{remove};
ghost use Rattle.std.specs.Option.{option_copied};
ghost use Rattle.gd_words.specs.declared.limits.TheConstants.{MOST_PACKETS};
ghost use Rattle.message_wires.specs.Wires.{is_due, is_on, put_again, put_on};
ghost use Rattle.posted_letters.specs.Rising.{Rises};

use crate::owed::place_of;
use crate::sent::Sent;
use gd_words::NoMemory;
use gd_words::limits::MOST_PACKETS;
use sendings::is_running;
use std::alloc::Global;
use std::collections::VecDeque;
use std::marker::Model;

/// For so many letters at most the bus is looked along letter by letter, which takes no memory.
const FEW: usize = 8;

/// The packets on the bus, in order.
#[derive(Drop)]
pub(crate) struct Bus {
    packets: VecDeque<Sent>,
}

impl Model for Bus {
    ghost use Rattle.std.specs.Coded.{codes};
    ghost use Rattle.std.specs.Prelude.{List, ◌≤◌, length};
    ghost use Rattle.gd_words.specs.declared.limits.TheConstants.{MOST_PACKETS};
    ghost use Rattle.message_wires.specs.Wires as wires;

    ghost Value = { List wires.Sent };

    ghost coded = { Prim.hlevel codes };

    ghost view = { λ bus. bus.packets.items };

    ghost invariant = { λ bus. length bus.packets.items ≤ MOST_PACKETS };
}

impl Bus {
    pub(crate) fn new(alloc: Global) -> Bus
        ensures { result ≡ [] }
    {
        Bus {
            packets: VecDeque::new(alloc),
        }
    }

    pub(crate) fn len(&self) -> usize
        ensures value { result ≡ length self.now }
        ensures few { result ≤ MOST_PACKETS }
    {
        self.packets.len()
    }

    pub(crate) fn get(&self, k: usize) -> Option<&Sent>
        ensures { option_copied result ≡ slice_get self.now k }
    {
        self.packets.get(k)
    }

    /// Whether a packet of this sending is there.
    pub(crate) fn has(&self, number: u64) -> bool
        ensures { result ≡ is_on self.now number }
    {
        self.packets.iter().any(|packet| packet.is_sending(number))
    }

    /// Puts a packet at the end. Where there is no room it is lost.
    pub(crate) fn put(&mut self, packet: Sent) -> Result<(), NoMemory>
        ensures { OnOk result (self.new ≡ put_on packet self.old) }
    {
        if self.packets.len() < MOST_PACKETS {
            self.packets.push_back(packet)?;
        }
        Ok(())
    }

    /// Puts a letter that is owed at the end once more, if it is due.
    fn put_due(&mut self, stopped: &[bool], node: u8, one: &Sent) -> Result<(), NoMemory>
        ensures { OnOk result (self.new ≡ (if is_due stopped.now node self.old one.now then put_on one.now self.old
            else self.old)) }
    {
        if one.sender() == node && is_running(stopped, one.receiver()) && !self.has(one.number()) {
            let packet = one.copy()?;
            self.put(packet)?;
        }
        Ok(())
    }

    /// Puts those of a few letters that are due on the bus again: the bus is looked along for each of them.
    fn put_few(&mut self, stopped: &[bool], node: u8, owed: &[Sent]) -> Result<(), NoMemory>
        ensures { OnOk result (self.new ≡ put_again stopped.now node owed.now self.old) }
    {
        for one in owed {
            self.put_due(stopped, node, one)?;
        }
        Ok(())
    }

    /// For each of these letters whether a packet of it is on the bus.
    fn on_bus(&self, owed: &[Sent]) -> Result<Vec<bool>, NoMemory>
        requires { Rises owed.now }
        ensures { IfOk result (λ on_bus. on_bus.items ≡ map (λ one. is_on self.now one.number) owed.now) }
    {
        let mut on_bus = vec![in *self.packets.allocator(); false; owed.len()]?;
        for k in 0..self.len() {
            if let Some(packet) = self.get(k) {
                if let Some(place) = place_of(owed, packet.number()) {
                    on_bus[place] = true;
                }
            }
        }
        Ok(on_bus)
    }

    /// Puts a letter at the end once more, if it is due: whether a packet of it is there is told.
    fn put_due_once(
        &mut self,
        stopped: &[bool],
        node: u8,
        one: &Sent,
        there: bool,
    ) -> Result<(), NoMemory>
        requires { there ≡ is_on self.old one.now.number }
        ensures { OnOk result (self.new ≡ (if is_due stopped.now node self.old one.now then put_on one.now self.old
            else self.old)) }
    {
        if one.sender() == node && is_running(stopped, one.receiver()) && !there {
            let packet = one.copy()?;
            self.put(packet)?;
        }
        Ok(())
    }

    /// Puts those of the letters that are due on the bus again: the bus is looked along once for all of them.
    fn put_many(&mut self, stopped: &[bool], node: u8, owed: &[Sent]) -> Result<(), NoMemory>
        requires { Rises owed.now }
        ensures { OnOk result (self.new ≡ put_again stopped.now node owed.now self.old) }
    {
        let on_bus = self.on_bus(owed)?;
        for k in 0..owed.len() {
            self.put_due_once(stopped, node, &owed[k], on_bus[k])?;
        }
        Ok(())
    }

    /// Puts those of the letters that are due on the bus again, the oldest first.
    pub(crate) fn put_again(
        &mut self,
        stopped: &[bool],
        node: u8,
        owed: &[Sent],
    ) -> Result<(), NoMemory>
        requires { Rises owed.now }
        ensures { OnOk result (self.new ≡ put_again stopped.now node owed.now self.old) }
    {
        if owed.len() <= FEW {
            self.put_few(stopped, node, owed)?;
        } else {
            self.put_many(stopped, node, owed)?;
        }
        Ok(())
    }

    /// Takes the packet at a position off the bus.
    pub(crate) fn take(&mut self, k: usize) -> Option<Sent>
        ensures packet { result ≡ slice_get self.old k }
        ensures rest { self.new ≡ remove self.old k }
    {
        self.packets.remove(k)
    }
}
