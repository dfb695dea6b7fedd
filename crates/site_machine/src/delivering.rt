ghost use Rattle.std.specs.Prelude.{◌≡◌, ◌&&◌, is_some, slice_get, IfOk, OnOk, Some};
ghost use Rattle.std.specs.Bool.{OnFalse, OnTrue};
ghost use Rattle.schedule.specs.declared.event.Event.TheVariants as event;
ghost use Rattle.node.specs.machine_states.specs.States.{Settles};
ghost use Rattle.node.specs.machine_states.specs.declared.effect.Effect.TheVariants as effects;
ghost use Rattle.node.specs.Calls.{alive_address};
ghost use Rattle.node.specs.packet_wires.specs.Nodes.{end_at};
ghost use Rattle.node.specs.packet_wires.specs.Play.{message_at_end, deliver_acted, ended, play, underway};
ghost use Rattle.node.specs.packet_wires.specs.Wires.{midst_after_arrival, on_bus, without_packet};
ghost use Rattle.node.specs.world_semantics.specs.World.{is_running};
ghost use Rattle.node.specs.event_parts.specs.Parts.{carried_out, completed_by, wires_after_delivery, is_current_in};
ghost use Rattle.site_machine.specs.Needs.{HaveNumbersLeft, IsReady};

use crate::whole::MachineParts;
use gd_words::{List, NoMemory};
use node::Effect;
use packet_words::{BusName, Packet};

impl MachineParts {
    /// The packet at a position of a bus is taken off, and comes at its receiver, where it comes in there.
    pub(crate) fn deliver(&mut self, bus: BusName, k: u32) -> Result<Effect, NoMemory>
        requires { IsReady self.old }
        ensures { IfOk result (λ effect. Settles (play self.old (event.Deliver bus k)) self.old effect self.new) }
    {
        let Some(packet) = self.take_off(bus, k as usize) else {
            return Ok(Effect::Skipped);
        };
        if self.comes_in(&packet) {
            let words = self.arrive(bus, &packet)?;
            self.hand_words(packet.receiver, words)?;
        }
        Ok(Effect::Done)
    }

    /// The first packet of a bus is delivered, if it is an I'm-alive packet. Answers whether it was.
    #[inline(always)]
    pub(crate) fn deliver_at_once(&mut self, bus: BusName) -> bool
        ensures alive { result ≡ is_some (alive_address (slice_get (on_bus bus self.old.wires) 0)) }
        ensures done { OnTrue result (Settles (play self.old (event.Deliver bus 0)) self.old effects.Done self.new) }
        ensures same { OnFalse result (self.new ≡ self.old) }
    {
        match bus {
            BusName::X => self.deliver_first(BusName::X),
            BusName::Y => self.deliver_first(BusName::Y),
        }
    }

    /// Delivers the first packet of a bus, if it is an I'm-alive packet, and answers whether it was. In line, so that
    /// it is found once where the packet stands on that bus.
    #[inline(always)]
    fn deliver_first(&mut self, bus: BusName) -> bool
        ensures alive { result ≡ is_some (alive_address (slice_get (on_bus bus self.old.wires) 0)) }
        ensures done { OnTrue result (Settles (ended (without_packet bus 0 self.old.wires)
            (deliver_acted bus (underway self.old) (slice_get (on_bus bus self.old.wires) 0))) self.old effects.Done
            self.new) }
        ensures same { OnFalse result (self.new ≡ self.old) }
    {
        match self.alive_first(bus) {
            None => false,
            Some((receiver, sender)) => {
                self.deliver_alive(bus, receiver, sender);
                true
            }
        }
    }

    /// The receiver and the sender of the first packet of a bus, where it is an I'm-alive packet.
    fn alive_first(&self, bus: BusName) -> Option<(u8, u8)>
        ensures { result ≡ alive_address (slice_get (on_bus bus self.now.wires) 0) }
    {
        self.wires.alive_address(bus, 0)
    }

    /// Whether a packet comes in at its receiver: that one runs, and the packet was sent since it and its sender were
    /// loaded last.
    #[inline(always)]
    fn comes_in(&self, packet: &Packet) -> bool
        ensures { result ≡ (is_running self.now.world.stopped packet.now.receiver
            && is_current_in (Some packet.now) self.now.wires.nodes) }
    {
        self.world.is_running(packet.receiver) && self.wires.knows(packet)
    }

    /// Whether the first packet of a bus, which comes to this receiver, comes in there.
    #[inline(always)]
    fn first_comes_in(&self, bus: BusName, receiver: u8) -> bool
        ensures { result ≡ (is_running self.now.world.stopped receiver
            && is_current_in (slice_get (on_bus bus self.now.wires) 0) self.now.wires.nodes) }
    {
        self.world.is_running(receiver) && self.wires.is_current(bus, 0)
    }

    /// The first packet of a bus, an I'm-alive packet from this sender, comes at its receiver, where it comes in there.
    #[inline(always)]
    fn deliver_alive(&mut self, bus: BusName, receiver: u8, sender: u8)
        requires { alive_address (slice_get (on_bus bus self.old.wires) 0) ≡ Some (receiver, sender) }
        ensures { Settles (ended (without_packet bus 0 self.old.wires)
            (deliver_acted bus (underway self.old) (slice_get (on_bus bus self.old.wires) 0))) self.old effects.Done
            self.new }
    {
        if self.first_comes_in(bus, receiver) {
            self.hear_first(bus, receiver, sender);
        } else {
            let _lost = self.take_off(bus, 0);
        }
    }

    /// The first packet of a bus, an I'm-alive packet from this sender, comes at its receiver.
    fn hear_first(&mut self, bus: BusName, receiver: u8, sender: u8)
        requires { alive_address (slice_get (on_bus bus self.old.wires) 0) ≡ Some (receiver, sender) }
        ensures completed { completed_by (slice_get (on_bus bus self.old.wires) 0) self.old.wires.nodes ≡ None }
        ensures after { self.new ≡ record self.old
            { wires = wires_after_delivery bus 0 (slice_get (on_bus bus self.old.wires) 0) self.old.wires } }
    {
        self.wires.hear_at(bus, 0, receiver, sender);
    }

    /// Takes the packet at a position off its bus.
    #[inline(always)]
    fn take_off(&mut self, bus: BusName, place: usize) -> Option<Packet>
        ensures packet { result ≡ slice_get (on_bus bus self.old.wires) place }
        ensures after { self.new ≡ record self.old { wires = without_packet bus place self.old.wires } }
    {
        self.wires.take(bus, place)
    }

    /// A packet that came by a bus comes at its receiver. It gives the message that is whole with it.
    fn arrive(&mut self, bus: BusName, packet: &Packet) -> Result<Option<List<i16>>, NoMemory>
        requires { HaveNumbersLeft self.old.wires.nodes }
        ensures completed { IfOk result (λ words. words
            ≡ message_at_end packet.now (end_at self.old.wires.nodes packet.now.receiver packet.now.sender)) }
        ensures after { OnOk result (self.new ≡ record self.old
            { wires = carried_out (midst_after_arrival bus packet.now) self.old.wires }) }
    {
        let words = self.wires.arrive(bus, packet)?;
        Ok(words)
    }

    /// The packet at a position of a bus is lost.
    pub(crate) fn lose(&mut self, bus: BusName, k: u32) -> Effect
        ensures { Settles (play self.old (event.Lose bus k)) self.old result self.new }
    {
        if k as usize >= self.wires.count(bus) {
            return Effect::Skipped;
        }
        let _lost = self.wires.take(bus, k as usize);
        Effect::Done
    }

    /// The packet at a position of a bus is sent once more over its bus.
    pub(crate) fn repeat(&mut self, bus: BusName, k: u32) -> Effect
        ensures { Settles (play self.old (event.Repeat bus k)) self.old result self.new }
    {
        if k as usize >= self.wires.count(bus) {
            return Effect::Skipped;
        }
        self.wires.repeat(bus, k as usize);
        Effect::Done
    }
}
