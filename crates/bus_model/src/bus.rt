ghost use Rattle.std.specs.Prelude.{◌≡◌, ◌≤◌, ◌<◌, ◌+◌, [], drop, length, slice_get, IfOk};
ghost use Rattle.std.specs.Vec.{vec_capacity};
ghost use Rattle.std.specs.List.{remove};
ghost use Rattle.std.specs.Option.{option_copied, option_map};
ghost use Rattle.packet_words.specs.gd_words.specs.declared.limits.TheConstants.{MOST_PACKETS};
ghost use Rattle.bus_model.specs.Packets.{has_room, sent, sent_again};

use packet_words::{MOST_PACKETS, NoMemory, Packet};
use std::alloc::Global;
use std::marker::Model;

/// How many packets there is room for, with those that were taken off: so at most one packet is moved to the front for
/// each that is sent.
const ROOM: usize = 2 * MOST_PACKETS;

/// The packets on a bus, the one that was sent first at position 0. Only `new` takes memory.
#[derive(Drop)]
pub struct Bus {
    /// Those on the bus, behind those that were taken off at its front.
    packets: Vec<Packet>,
    /// How many were taken off there.
    taken: usize,
}

impl Model for Bus {
    ghost use Rattle.std.specs.Prelude.{List, ◌≤◌, ◌+◌, drop, length};
    ghost use Rattle.std.specs.Vec.{vec_capacity};
    ghost use Rattle.packet_words.specs.gd_words.specs.declared.limits.TheConstants.{MOST_PACKETS};
    ghost use Rattle.packet_words.specs.declared.packet.Packet.{Packet};
    ghost use Rattle.bus_model.specs.declared.bus.TheConstants.{ROOM};

    ghost Value = { List Packet };

    ghost view = { λ bus. drop bus.taken bus.packets.items };

    ghost invariant = { λ bus. (ROOM ≤ vec_capacity bus.packets) × (bus.taken ≤ length bus.packets.items)
        × (length bus.packets.items ≤ ROOM) × (length bus.packets.items ≤ bus.taken + MOST_PACKETS) };
}

impl Bus {
    /// No packet, and room for all that there may be.
    pub fn new(alloc: Global) -> Result<Bus, NoMemory>
        ensures { IfOk result (λ bus. bus ≡ []) }
    {
        let packets = Vec::with_capacity(alloc, ROOM)?;
        Ok(Bus { packets, taken: 0 })
    }

    /// How many packets are on the bus.
    pub fn len(&self) -> usize
        ensures value { result ≡ length self.now }
        ensures few { result ≤ MOST_PACKETS }
    {
        self.packets.len() - self.taken
    }

    /// The packet at a position.
    pub fn get(&self, position: usize) -> Option<&Packet>
        ensures { option_copied result ≡ slice_get self.now position }
    {
        let (_, there) = self.packets.split_at(self.taken);
        there.get(position)
    }

    /// Sends a packet: it goes to the end. On a full bus it is lost, and the answer is no.
    pub fn send(&mut self, packet: Packet) -> bool
        ensures went { result ≡ has_room self.old }
        ensures after { self.new ≡ sent packet self.old }
    {
        if MOST_PACKETS <= self.len() {
            return false;
        }
        if ROOM <= self.packets.len() {
            move_to_front(&mut self.packets, self.taken);
            self.taken = 0;
        }
        self.packets.push_reserved(packet);
        true
    }

    /// Takes out the packet at a position, which is delivered or lost. Those behind it move up.
    #[inline(always)]
    pub fn take(&mut self, position: usize) -> Option<Packet>
        ensures value { result ≡ slice_get self.old position }
        ensures after { self.new ≡ remove self.old position }
    {
        if position == 0 {
            self.take_first()
        } else {
            self.take_behind(position)
        }
    }

    #[inline(always)]
    fn take_first(&mut self) -> Option<Packet>
        ensures value { result ≡ slice_get self.old 0 }
        ensures after { self.new ≡ remove self.old 0 }
    {
        let packet = self.get(0)?.copy();
        self.taken += 1;
        Some(packet)
    }

    /// The same of one that others stand before: those before it are moved, or those behind it, whichever are fewer.
    #[inline(never)]
    fn take_behind(&mut self, position: usize) -> Option<Packet>
        ensures value { result ≡ slice_get self.old position }
        ensures after { self.new ≡ remove self.old position }
    {
        let there = self.len();
        if there <= position {
            return None;
        }
        if there <= 2 * position {
            return Some(self.packets.remove(self.taken + position));
        }
        bring_to_front(&mut self.packets, self.taken, position);
        self.take_first()
    }

    /// Sends the packet at a position once more; whether the copy found room, and none where no packet stands there.
    pub fn repeat(&mut self, position: usize) -> Option<bool>
        ensures went { result ≡ option_map (λ _. has_room self.old) (slice_get self.old position) }
        ensures after { self.new ≡ sent_again (slice_get self.old position) self.old }
    {
        let copy = self.get(position)?.copy();
        Some(self.send(copy))
    }
}

/// Moves the packets behind those that were taken off to the front, in their place. Out of line, as few packets need
/// it.
#[inline(never)]
fn move_to_front(packets: &mut Vec<Packet>, taken: usize)
    requires some { taken ≤ length packets.old.items }
    requires room { length packets.old.items ≤ taken + taken }
    ensures items { packets.new.items ≡ drop taken packets.old.items }
    ensures capacity { vec_capacity packets.new ≡ vec_capacity packets.old }
{
    let there = packets.len() - taken;
    let (front, back) = packets.split_at_mut(taken);
    front[..there].swap_with_slice(back);
    packets.truncate(there);
}

/// Moves the packet at a position in front of all that weren't taken off.
fn bring_to_front(packets: &mut Vec<Packet>, taken: usize, position: usize)
    requires { position < length (drop taken packets.old.items) }
    ensures first { slice_get (drop taken packets.new.items) 0 ≡ slice_get (drop taken packets.old.items) position }
    ensures rest { drop 1 (drop taken packets.new.items) ≡ remove (drop taken packets.old.items) position }
    ensures same_len { length packets.new.items ≡ length packets.old.items }
    ensures capacity { vec_capacity packets.new ≡ vec_capacity packets.old }
{
    let (_, there) = packets.split_at_mut(taken);
    bring_first(there, position);
}

fn bring_first(packets: &mut [Packet], position: usize)
    requires { position < length packets.old }
    ensures first { slice_get packets.new 0 ≡ slice_get packets.old position }
    ensures rest { drop 1 packets.new ≡ remove packets.old position }
    ensures same_len { length packets.new ≡ length packets.old }
{
    let (front, _) = packets.split_at_mut(position + 1);
    front.rotate_right(1);
}
