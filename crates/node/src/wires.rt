ghost use Rattle.std.specs.Prelude.{◌≡◌, ◌<◌, ◌≤◌, ◌==◌, ◌++◌, ◌∷◌, [], ℕ, None, Some, length, slice_get};
ghost use Rattle.std.specs.Prelude.{true, if◌then◌else◌, map, IfSome, IfNone, IfOk, OnOk};
ghost use Rattle.std.specs.Bool.{OnFalse};
ghost use Rattle.std.specs.Option.{option_and_then, option_copied, option_map};
ghost use Rattle.gd_words.specs.declared.limits.TheConstants.{MOST_NODES, MOST_PACKETS};
ghost use Rattle.packet_words.specs.declared.packet.Packet.{Packet};
ghost use Rattle.alive_regroup.specs.Watching as watching;
ghost use Rattle.alive_regroup.specs.Watching.{changed_at};
ghost use Rattle.event_parts.specs.packet_wires.specs.Idle.{holds_nothing};
ghost use Rattle.event_parts.specs.packet_wires.specs.Lines.{line_pulled};
ghost use Rattle.event_parts.specs.packet_wires.specs.Nodes.{Node, end_at, node_after_reload, others};
ghost use Rattle.event_parts.specs.packet_wires.specs.Play.{message_at_end, is_current_at};
ghost use Rattle.event_parts.specs.packet_wires.specs.Wires.{alive_at, any_goes_over, midst_after_arrival, at_end};
ghost use Rattle.event_parts.specs.packet_wires.specs.Wires.{checks, cut_off};
ghost use Rattle.event_parts.specs.packet_wires.specs.Wires.{declares};
ghost use Rattle.event_parts.specs.packet_wires.specs.Wires.{down_at, for_each, goes_again, goes_over, learns};
ghost use Rattle.event_parts.specs.packet_wires.specs.Wires.{nothing_sent, on_bus};
ghost use Rattle.event_parts.specs.packet_wires.specs.Wires.{push_at, reports, resends, tells_alive, tick_at};
ghost use Rattle.event_parts.specs.packet_wires.specs.Wires.{midst_after_tick};
ghost use Rattle.event_parts.specs.packet_wires.specs.Wires.{wires_at_boot};
ghost use Rattle.event_parts.specs.packet_wires.specs.Wires.{loaded_again, without_packet};
ghost use Rattle.event_parts.specs.Numbers.{CanPush, CanReload, HasNumbersAt};
ghost use Rattle.event_parts.specs.Parts.{carried_out, completed_by, wires_after_delivery, is_current_in};
ghost use Rattle.event_parts.specs.Parts.{wires_after_repeat};
ghost use Rattle.node.specs.Calls.{alive_address, arrive_by, both_go};

use crate::node::Node;
use alive_regroup::{ProcessorSet, Watch};
use event_parts::Bus;
use gd_words::limits::{MOST_NODES, TERMINAL_NODE};
use gd_words::{List, NoMemory};
use link_control::{Channel, Resent};
use message_words::{down_words, report_words};
use packet_words::{BusName, Packet, PacketKind};
use std::alloc::Global;
use std::marker::Model;

/// Both buses and all nodes. Memory is taken at the beginning, for messages that are sent, for pieces that come of a
/// long message, and for messages that are handed over; for nothing else.
#[derive(Drop)]
pub struct PacketWires {
    x: Bus,
    y: Bus,
    nodes: Vec<Node>,
    alloc: Global,
}

impl Model for PacketWires {
    ghost use Rattle.event_parts.specs.packet_wires.specs.Wires as wires;

    ghost Value = { wires.Wires };

    ghost view = { λ all. record { x = all.x; y = all.y; nodes = all.nodes.items } };
}

impl PacketWires {
    /// The wires of a site of so many processors at the beginning.
    pub fn boot(alloc: Global, processors: u8) -> Result<PacketWires, NoMemory>
        ensures { IfOk result (λ wires. wires ≡ wires_at_boot processors) }
    {
        let x = Bus::new(alloc)?;
        let y = Bus::new(alloc)?;
        let mut nodes = Vec::with_capacity(alloc, usize::from(MOST_NODES))?;
        for node in 0..MOST_NODES {
            nodes.push(Node::boot(alloc, processors, node)?)?;
        }
        Ok(PacketWires { x, y, nodes, alloc })
    }

    /// How many packets are on a bus.
    pub fn count(&self, bus: BusName) -> usize
        ensures value { result ≡ length (on_bus bus self.now) }
        ensures few { result ≤ MOST_PACKETS }
    {
        match bus {
            BusName::X => self.x.len(),
            BusName::Y => self.y.len(),
        }
    }

    /// The packet at a position of a bus.
    pub fn packet_at(&self, bus: BusName, position: usize) -> Option<&Packet>
        ensures { option_copied result ≡ slice_get (on_bus bus self.now) position }
    {
        match bus {
            BusName::X => self.x.get(position),
            BusName::Y => self.y.get(position),
        }
    }

    /// Takes the packet at a position off its bus.
    pub fn take(&mut self, bus: BusName, position: usize) -> Option<Packet>
        ensures packet { result ≡ slice_get (on_bus bus self.old) position }
        ensures after { self.new ≡ without_packet bus position self.old }
    {
        match bus {
            BusName::X => self.x.take(position),
            BusName::Y => self.y.take(position),
        }
    }

    /// Sends the packet at a position once more over its bus, where one is there.
    pub fn repeat(&mut self, bus: BusName, position: usize)
        ensures { self.new ≡ wires_after_repeat bus (slice_get (on_bus bus self.old) position) self.old }
    {
        match bus {
            BusName::X => {
                self.x.repeat(position);
            }
            BusName::Y => {
                self.y.repeat(position);
            }
        }
    }

    /// Whether the end that a node has with another holds nothing, outstanding or queued.
    pub fn holds_nothing(&self, from: u8, to: u8) -> bool
        ensures { result ≡ holds_nothing (end_at self.now.nodes from to) }
    {
        match self.nodes.get(usize::from(from)) {
            None => true,
            Some(node) => node.holds_nothing(to),
        }
    }

    /// The end that a node has of its channel with another.
    pub fn end_at(&self, from: u8, to: u8) -> Option<&Channel>
        ensures { option_copied result ≡ end_at self.now.nodes from to }
    {
        let node = self.nodes.get(usize::from(from))?;
        node.end(to)
    }

    /// A node, by its number.
    pub fn node(&self, node: u8) -> Option<&Node>
        ensures { option_copied result ≡ slice_get self.now.nodes node }
    {
        self.nodes.get(usize::from(node))
    }

    /// What a node knows of the processors.
    pub fn watch_at(&self, node: u8) -> Option<Watch>
        ensures { result ≡ option_map (λ node. node.watch) (slice_get self.now.nodes node) }
    {
        let node = self.nodes.get(usize::from(node))?;
        Some(node.watch())
    }

    /// Whether a packet stands at a position of a bus that bears the present incarnations of its sender and its
    /// receiver.
    pub fn is_current(&self, bus: BusName, position: usize) -> bool
        ensures { result ≡ is_current_in (slice_get (on_bus bus self.now) position) self.now.nodes }
    {
        match self.packet_at(bus, position) {
            None => false,
            Some(packet) => self.knows(packet),
        }
    }

    /// Whether the end to which a packet comes knows its incarnations.
    pub fn knows(&self, packet: &Packet) -> bool
        ensures { result ≡ is_current_at packet.now (end_at self.now.nodes packet.now.receiver packet.now.sender) }
    {
        match self.end_at(packet.receiver, packet.sender) {
            None => false,
            Some(end) => end.is_current(packet),
        }
    }

    /// A packet goes over a bus.
    fn put(&mut self, bus: BusName, packet: Packet)
        ensures { self.new ≡ carried_out (goes_over bus packet) self.old }
    {
        match bus {
            BusName::X => {
                self.x.send(packet);
            }
            BusName::Y => {
                self.y.send(packet);
            }
        }
    }

    fn put_any(&mut self, bus: BusName, packet: Option<Packet>)
        ensures { self.new ≡ carried_out (any_goes_over bus packet) self.old }
    {
        if let Some(packet) = packet {
            self.put(bus, packet);
        }
    }

    fn put_again(&mut self, resent: Option<Resent>)
        ensures { self.new ≡ carried_out (goes_again resent) self.old }
    {
        if let Some(resent) = resent {
            self.put(resent.bus, resent.packet);
        }
    }

    fn put_both(&mut self, packet: Option<Packet>)
        ensures { self.new ≡ carried_out (both_go packet) self.old }
    {
        if let Some(packet) = packet {
            self.x.send(packet.copy());
            self.y.send(packet);
        }
    }

    /// A node sends a message to a node, in its words.
    pub fn send(&mut self, from: u8, to: u8, message: List<i16>) -> Result<(), NoMemory>
        requires some { 0 < length message }
        requires numbered { CanPush self.old.nodes }
        ensures { OnOk result (self.new ≡ carried_out (at_end from to (push_at from to message)) self.old) }
    {
        let place = usize::from(from);
        if place >= self.nodes.len() {
            return Ok(());
        }
        let packet = self.nodes[place].push(to, message)?;
        self.put_any(BusName::X, packet);
        Ok(())
    }

    /// The receiver and the sender of the packet at a position of a bus, where it is an I'm-alive packet.
    pub fn alive_address(&self, bus: BusName, position: usize) -> Option<(u8, u8)>
        ensures { result ≡ alive_address (slice_get (on_bus bus self.now) position) }
    {
        match bus {
            BusName::X => alive_address(self.x.get(position)),
            BusName::Y => alive_address(self.y.get(position)),
        }
    }

    /// The I'm-alive packet at a position of a bus, from this sender, is taken off and comes at its receiver. No
    /// message is whole with it.
    pub fn hear_at(&mut self, bus: BusName, position: usize, receiver: u8, sender: u8)
        requires { alive_address (slice_get (on_bus bus self.old) position) ≡ Some (receiver, sender) }
        ensures completed { completed_by (slice_get (on_bus bus self.old) position) self.old.nodes ≡ None }
        ensures after { self.new ≡ wires_after_delivery bus position
            (slice_get (on_bus bus self.old) position) self.old }
    {
        let _heard = self.take(bus, position);
        self.hear(receiver, sender);
    }

    /// A packet that came by a bus comes at its receiver. It gives the message that is whole with it.
    pub fn arrive(&mut self, bus: BusName, packet: &Packet) -> Result<Option<List<i16>>, NoMemory>
        requires { HasNumbersAt packet.now.receiver packet.now.sender self.old.nodes }
        ensures completed { IfOk result (λ words. words
            ≡ message_at_end packet.now (end_at self.old.nodes packet.now.receiver packet.now.sender)) }
        ensures after { OnOk result (self.new ≡ carried_out (midst_after_arrival bus packet.now) self.old) }
    {
        match &packet.kind {
            PacketKind::Alive => {
                self.hear(packet.receiver, packet.sender);
                Ok(None)
            }
            PacketKind::Piece {
                number: _,
                piece: _,
            } => {
                let words = self.come_in(bus, packet)?;
                Ok(words)
            }
            PacketKind::Acknowledgement { number: _ } => {
                let words = self.come_in(BusName::X, packet)?;
                Ok(words)
            }
        }
    }

    /// A packet comes at its receiver's end, whose answer takes this bus.
    fn come_in(&mut self, bus: BusName, packet: &Packet) -> Result<Option<List<i16>>, NoMemory>
        requires { HasNumbersAt packet.now.receiver packet.now.sender self.old.nodes }
        ensures completed { IfOk result (λ words. words
            ≡ message_at_end packet.now (end_at self.old.nodes packet.now.receiver packet.now.sender)) }
        ensures after { OnOk result (self.new ≡ carried_out
            (at_end packet.now.receiver packet.now.sender (arrive_by bus packet.now)) self.old) }
    {
        let place = usize::from(packet.receiver);
        if place >= self.nodes.len() {
            return Ok(None);
        }
        let arrived = self.nodes[place].on_packet(packet)?;
        self.put_any(bus, arrived.send);
        Ok(arrived.delivered)
    }

    /// A node hears that a processor is alive.
    fn hear(&mut self, node: u8, from: u8)
        ensures { self.new ≡ carried_out (learns node (changed_at from watching.neighbour_after_alive)) self.old }
    {
        let place = usize::from(node);
        if place < self.nodes.len() {
            self.nodes[place].hear(from);
        }
    }

    /// A node notes the silent set that a processor reported.
    pub fn note(&mut self, node: u8, from: u8, silent: ProcessorSet)
        ensures { self.new ≡ carried_out (learns node (changed_at from (watching.neighbour_after_report silent)))
            self.old }
    {
        let place = usize::from(node);
        if place < self.nodes.len() {
            self.nodes[place].note(from, silent);
        }
    }

    /// A node ticks: it tells the others that it is alive, checks and reports, and sends again what is outstanding.
    #[inline(always)]
    pub fn tick(&mut self, from: u8, processors: u8) -> Result<(), NoMemory>
        requires { CanPush self.old.nodes }
        ensures { OnOk result (self.new ≡ carried_out (midst_after_tick processors from) self.old) }
    {
        self.tell_alive(from, processors);
        let holding = self.check(from, processors)?;
        self.resend(from, holding);
        Ok(())
    }

    fn tell_alive(&mut self, from: u8, processors: u8)
        ensures { self.new ≡ carried_out (tells_alive processors from) self.old }
    {
        if from == TERMINAL_NODE {
            return;
        }
        for to in 0..processors {
            self.tell_other(from, to);
        }
    }

    fn tell_other(&mut self, from: u8, to: u8)
        ensures { self.new ≡ (if to == from then self.old else carried_out (at_end from to alive_at) self.old) }
    {
        if to != from {
            self.tell_one(from, to);
        }
    }

    fn tell_one(&mut self, from: u8, to: u8)
        ensures { self.new ≡ carried_out (at_end from to alive_at) self.old }
    {
        let place = usize::from(from);
        if place >= self.nodes.len() {
            return;
        }
        let packet = self.nodes[place].alive_to(to);
        self.put_both(packet);
    }

    /// A node checks, and reports what that changed. Answers whether an end of it holds something, outstanding or
    /// queued.
    #[inline(always)]
    fn check(&mut self, from: u8, processors: u8) -> Result<bool, NoMemory>
        requires { CanPush self.old.nodes }
        ensures after { OnOk result (self.new ≡ carried_out (checks processors from) self.old) }
        ensures holding { IfOk result (λ holding. OnFalse holding
            ((other : ℕ) → holds_nothing (end_at self.new.nodes from other) ≡ true)) }
    {
        let place = usize::from(from);
        if place >= self.nodes.len() {
            return Ok(false);
        }
        let node = &mut self.nodes[place];
        let told = node.check();
        let holding = node.holds_any();
        match told {
            None => Ok(holding),
            Some(silent) => {
                self.report(from, processors, silent)?;
                Ok(self.holds_any(from))
            }
        }
    }

    /// A node reports this silent set to the other processors. Out of line, as few ticks need it.
    #[inline(never)]
    fn report(&mut self, from: u8, processors: u8, silent: ProcessorSet) -> Result<(), NoMemory>
        requires { CanPush self.old.nodes }
        ensures { OnOk result (self.new ≡ carried_out (reports processors from (Some silent)) self.old) }
    {
        let words = report_words(self.alloc, from, silent)?;
        self.send_others(from, processors, words.as_slice())?;
        Ok(())
    }

    /// A node sends a message of these words to each processor but itself, in rising order.
    fn send_others(&mut self, from: u8, processors: u8, words: &[i16]) -> Result<(), NoMemory>
        requires some { 0 < length words.now }
        requires numbered { CanPush self.old.nodes }
        ensures { OnOk result (self.new ≡ carried_out
            (for_each (λ y. at_end from y (push_at from y words.now)) (others processors from)) self.old) }
    {
        for to in 0..processors {
            self.send_other(from, to, words)?;
        }
        Ok(())
    }

    fn send_other(&mut self, from: u8, to: u8, words: &[i16]) -> Result<(), NoMemory>
        requires some { 0 < length words.now }
        requires numbered { CanPush self.old.nodes }
        ensures { OnOk result (self.new ≡ (if to == from then self.old else carried_out
            (at_end from to (push_at from to words.now)) self.old)) }
    {
        if to != from {
            self.send_copy(from, to, words)?;
        }
        Ok(())
    }

    fn send_copy(&mut self, from: u8, to: u8, words: &[i16]) -> Result<(), NoMemory>
        requires some { 0 < length words.now }
        requires numbered { CanPush self.old.nodes }
        ensures { OnOk result (self.new ≡ carried_out (at_end from to (push_at from to words.now)) self.old) }
    {
        let mut message = List::from_vec(Vec::with_capacity(self.alloc, words.len())?);
        message.extend_from_slice(words)?;
        self.send(from, to, message)?;
        Ok(())
    }

    /// A node sends again what is outstanding, if it is told that an end of it holds something.
    #[inline(always)]
    fn resend(&mut self, from: u8, holding: bool)
        requires { OnFalse holding ((other : ℕ) → holds_nothing (end_at self.old.nodes from other) ≡ true) }
        ensures { self.new ≡ carried_out (resends from) self.old }
    {
        if holding {
            self.resend_held(from);
        }
    }

    /// Whether an end of a node holds something, outstanding or queued.
    fn holds_any(&self, node: u8) -> bool
        ensures { OnFalse result ((other : ℕ) → holds_nothing (end_at self.now.nodes node other) ≡ true) }
    {
        match self.nodes.get(usize::from(node)) {
            None => false,
            Some(node) => node.holds_any(),
        }
    }

    /// A node sends again what is outstanding. Out of line, so that a tick with nothing outstanding has little to do.
    #[inline(never)]
    fn resend_held(&mut self, from: u8)
        ensures { self.new ≡ carried_out (resends from) self.old }
    {
        let mut next = 0;
        while let Some(to) = self.held_from(from, next) {
            self.resend_to(from, to);
            next = to + 1;
        }
    }

    /// The first node from a number on, the end of a node with which holds something.
    fn held_from(&self, node: u8, first: u8) -> Option<u8>
        ensures held { IfSome result (λ held. (first ≤ held) × (held < MOST_NODES)) }
        ensures skipped { IfSome result (λ held. (other : ℕ) → first ≤ other → other < held
            → holds_nothing (end_at self.now.nodes node other) ≡ true) }
        ensures none { IfNone result ((other : ℕ) → first ≤ other → other < MOST_NODES
            → holds_nothing (end_at self.now.nodes node other) ≡ true) }
    {
        match self.nodes.get(usize::from(node)) {
            None => None,
            Some(node) => node.held_from(first),
        }
    }

    fn resend_to(&mut self, from: u8, to: u8)
        ensures { self.new ≡ carried_out (at_end from to (tick_at from to)) self.old }
    {
        let place = usize::from(from);
        if place >= self.nodes.len() {
            return;
        }
        let resent = self.nodes[place].on_tick(to);
        self.put_again(resent);
    }

    /// The processor whose line a node pulls now.
    pub fn line(&self, node: u8) -> Option<u8>
        ensures { result ≡ option_and_then (line_pulled node) (slice_get self.now.nodes node) }
    {
        let place = usize::from(node);
        if place >= self.nodes.len() {
            return None;
        }
        self.nodes[place].line(node)
    }

    /// The processor whose line a node would pull after a tick made now.
    #[inline(always)]
    pub fn line_after_tick(&self, node: u8) -> Option<u8>
        ensures { (processors : ℕ) → result ≡ option_and_then (line_pulled node)
            (slice_get (midst_after_tick processors node (nothing_sent self.now.nodes)).nodes node) }
    {
        let place = usize::from(node);
        if place >= self.nodes.len() {
            return None;
        }
        self.nodes[place].line_after_tick(node)
    }

    /// A node cuts a processor off: it throws its end with it away, and has marked it.
    pub fn cut_off(&mut self, node: u8, processor: u8)
        ensures { self.new ≡ carried_out (cut_off node processor) self.old }
    {
        self.throw_away(node, processor);
        self.mark(node, processor);
    }

    fn throw_away(&mut self, node: u8, processor: u8)
        ensures { self.new ≡ carried_out (at_end node processor (down_at node processor)) self.old }
    {
        let place = usize::from(node);
        if place < self.nodes.len() {
            self.nodes[place].throw_away(processor);
        }
    }

    fn mark(&mut self, node: u8, processor: u8)
        ensures { self.new ≡ carried_out (learns node (changed_at processor watching.neighbour_after_down)) self.old }
    {
        let place = usize::from(node);
        if place < self.nodes.len() {
            self.nodes[place].mark(processor);
        }
    }

    /// A node tells all others that a processor is down, the node of the terminals last.
    pub fn declare(&mut self, from: u8, processors: u8, processor: u8) -> Result<(), NoMemory>
        requires { CanPush self.old.nodes }
        ensures { OnOk result (self.new ≡ carried_out (declares processors from processor) self.old) }
    {
        let words = down_words(self.alloc, processor)?;
        self.send_others(from, processors, words.as_slice())?;
        self.send(from, TERMINAL_NODE, words)?;
        Ok(())
    }

    /// A processor of a site with so many is loaded again: all its channels are new, at both ends.
    pub fn reload(&mut self, processors: u8, loaded: u8)
        requires { CanReload loaded self.old.nodes }
        ensures { self.new ≡ carried_out (loaded_again processors loaded) self.old }
    {
        reload_all(self.nodes.as_mut_slice(), self.alloc, processors, loaded);
    }
}

/// A processor of a site with so many was loaded again.
fn reload_all(nodes: &mut [Node], alloc: Global, processors: u8, loaded: u8)
    requires { CanReload loaded nodes.old }
    ensures { nodes.new ≡ map (node_after_reload processors loaded) nodes.old }
{
    for node in nodes.iter_mut() {
        node.on_reload(alloc, processors, loaded);
    }
}

/// The receiver and the sender of an alive packet.
fn alive_address(packet: Option<&Packet>) -> Option<(u8, u8)>
    ensures { result ≡ alive_address (option_copied packet.entry) }
{
    let packet = packet?;
    match &packet.kind {
        PacketKind::Alive => Some((packet.receiver, packet.sender)),
        PacketKind::Piece {
            number: _,
            piece: _,
        } => None,
        PacketKind::Acknowledgement { number: _ } => None,
    }
}
