ghost use Rattle.std.specs.Prelude.{◌≡◌, ◌≤◌, ◌<◌, ◌+◌, ◌==◌, ◌&&◌, ℕ, true, not, length, map, slice_get};
ghost use Rattle.std.specs.Prelude.{IfSome, IfNone, IfOk, OnOk, Some};
ghost use Rattle.std.specs.Bool.{OnFalse};
ghost use Rattle.std.specs.Option.{option_copied};
ghost use Rattle.gd_words.specs.declared.limits.TheConstants.{MOST_NODES, MOST_PROCESSORS};
ghost use Rattle.alive_regroup.specs.Watching as watching;
ghost use Rattle.alive_regroup.specs.Watching.{changed_at, is_held, told_by_tick};
ghost use Rattle.link_control.specs.Ends.{after_down, after_packet, after_push, after_tick, alive_of, handed_by_packet};
ghost use Rattle.link_control.specs.Ends.{End, HasIncarnationLeft, end_after_reload, sent_by_packet};
ghost use Rattle.link_control.specs.Ends.{sent_by_push, sent_by_tick};
ghost use Rattle.event_parts.specs.packet_wires.specs.Idle.{holds_nothing};
ghost use Rattle.event_parts.specs.packet_wires.specs.Lines.{first_held, line_pulled};
ghost use Rattle.event_parts.specs.packet_wires.specs.Nodes.{node_after_reload, node_at_boot};
ghost use Rattle.event_parts.specs.Numbers.{HasNumbersWith, NodeCanPush, NodeCanReload};
ghost use Rattle.node.specs.Held.{holding_in, one_if};
ghost use Rattle.node.specs.Calls.{told_at_end, with_end_changed, with_watch_changed};

use alive_regroup::{Listener, ProcessorSet, Watch};
use gd_words::limits::{MOST_NODES, MOST_PROCESSORS};
use gd_words::{List, NoMemory};
use link_control::{Arrived, Channel, Resent};
use packet_words::{Incarnation, Packet};
use std::alloc::Global;
use std::marker::Model;

/// No node was ever loaded again.
const NEVER_RELOADED: Incarnation = Incarnation {
    sender: 0,
    receiver: 0,
};

/// A node: its ends of the channels with all nodes, by their numbers, and what it knows of the processors. Memory is
/// taken at the beginning, for messages that wait and for pieces that come of a long message.
#[derive(Drop)]
pub struct Node {
    ends: Vec<Channel>,
    listener: Listener,
    /// How many ends have something outstanding or queued, so that a tick looks at them only if there is one.
    holding: usize,
}

impl Model for Node {
    ghost use Rattle.std.specs.Prelude.{◌≡◌};
    ghost use Rattle.event_parts.specs.packet_wires.specs.Nodes as nodes;
    ghost use Rattle.node.specs.Held.{holding_in};

    ghost Value = { nodes.Node };

    ghost view = { λ node. record { ends = node.ends.items; watch = node.listener } };

    ghost invariant = { λ node. node.holding ≡ holding_in node.ends.items };
}

impl Node {
    /// A node of a site of so many processors at the beginning.
    pub fn boot(alloc: Global, processors: u8, me: u8) -> Result<Node, NoMemory>
        ensures { IfOk result (λ node. node ≡ node_at_boot processors me) }
    {
        let mut ends = Vec::with_capacity(alloc, usize::from(MOST_NODES))?;
        for other in 0..MOST_NODES {
            ends.push(Channel::new(alloc, me, other, NEVER_RELOADED))?;
        }
        let holding = count_holding(ends.as_slice());
        Ok(Node {
            ends,
            listener: Listener::new(me, processors),
            holding,
        })
    }

    /// Takes a message for a node; it gives the packet that goes out now, over bus X.
    pub fn push(&mut self, to: u8, message: List<i16>) -> Result<Option<Packet>, NoMemory>
        requires some { 0 < length message }
        requires numbered { NodeCanPush self.old }
        ensures sent { IfOk result (λ packet. packet ≡ told_at_end to (sent_by_push message) self.old) }
        ensures after { OnOk result (self.new ≡ with_end_changed to (after_push message) self.old) }
    {
        let place = usize::from(to);
        if place >= self.ends.len() {
            return Ok(None);
        }
        let end = &mut self.ends[place];
        let held = !end.is_empty();
        let packet = end.push(message)?;
        self.holding = counted_again(self.holding, held, !end.is_empty());
        Ok(packet)
    }

    /// A piece or an acknowledgement comes from the node that it names.
    pub fn on_packet(&mut self, packet: &Packet) -> Result<Arrived, NoMemory>
        requires { HasNumbersWith packet.now.sender self.old }
        ensures sent { IfOk result (λ arrived. arrived.send
            ≡ told_at_end packet.now.sender (sent_by_packet packet.now) self.old) }
        ensures delivered { IfOk result (λ arrived. arrived.delivered
            ≡ told_at_end packet.now.sender (handed_by_packet packet.now) self.old) }
        ensures after { OnOk result (self.new ≡ with_end_changed packet.now.sender (after_packet packet.now) self.old) }
    {
        let place = usize::from(packet.sender);
        if place >= self.ends.len() {
            return Ok(Arrived {
                send: None,
                delivered: None,
            });
        }
        let end = &mut self.ends[place];
        let held = !end.is_empty();
        let arrived = end.on_packet(packet)?;
        self.holding = counted_again(self.holding, held, !end.is_empty());
        Ok(arrived)
    }

    /// A tick at the end with a node; it gives what is sent again.
    pub fn on_tick(&mut self, to: u8) -> Option<Resent>
        ensures sent { result ≡ told_at_end to sent_by_tick self.old }
        ensures after { self.new ≡ with_end_changed to after_tick self.old }
    {
        let place = usize::from(to);
        if place >= self.ends.len() {
            return None;
        }
        let end = &mut self.ends[place];
        let held = !end.is_empty();
        let resent = end.on_tick();
        self.holding = counted_again(self.holding, held, !end.is_empty());
        resent
    }

    /// The node throws its end with a processor away.
    pub fn throw_away(&mut self, processor: u8)
        ensures { self.new ≡ with_end_changed processor after_down self.old }
    {
        let place = usize::from(processor);
        if place < self.ends.len() {
            let end = &mut self.ends[place];
            let held = !end.is_empty();
            end.down();
            self.holding = counted_again(self.holding, held, !end.is_empty());
        }
    }

    /// The packet that tells a node that this one is alive, unless that one is marked down.
    pub fn alive_to(&self, to: u8) -> Option<Packet>
        ensures { result ≡ told_at_end to alive_of self.now }
    {
        let place = usize::from(to);
        if place >= self.ends.len() {
            return None;
        }
        self.ends[place].alive()
    }

    /// Whether the end with a node has nothing outstanding or queued.
    pub fn holds_nothing(&self, to: u8) -> bool
        ensures { result ≡ holds_nothing (slice_get self.now.ends to) }
    {
        match self.ends.get(usize::from(to)) {
            None => true,
            Some(channel) => channel.is_empty(),
        }
    }

    /// The node's end of its channel with a node.
    pub fn end(&self, to: u8) -> Option<&Channel>
        ensures { option_copied result ≡ slice_get self.now.ends to }
    {
        self.ends.get(usize::from(to))
    }

    /// What the node knows of the processors.
    pub fn watch(&self) -> Watch
        ensures { result ≡ self.now.watch }
    {
        self.listener.watch()
    }

    /// Whether an end has something outstanding or queued.
    #[inline(always)]
    pub(crate) fn holds_any(&self) -> bool
        ensures { OnFalse result ((other : ℕ) → holds_nothing (slice_get self.now.ends other) ≡ true) }
    {
        0 < self.holding
    }

    /// The first node from a number on, the end with which has something outstanding or queued.
    pub fn held_from(&self, first: u8) -> Option<u8>
        ensures held { IfSome result (λ held. (first ≤ held) × (held < MOST_NODES)) }
        ensures skipped { IfSome result (λ held. (other : ℕ) → first ≤ other → other < held
            → holds_nothing (slice_get self.now.ends other) ≡ true) }
        ensures none { IfNone result ((other : ℕ) → first ≤ other → other < MOST_NODES
            → holds_nothing (slice_get self.now.ends other) ≡ true) }
    {
        for other in first..MOST_NODES {
            if !self.holds_nothing(other) {
                return Some(other);
            }
        }
        None
    }

    /// A tick of what the node knows of the processors: the silent set to report, where a check changed it.
    #[inline(always)]
    pub fn check(&mut self) -> Option<ProcessorSet>
        ensures told { result ≡ told_by_tick self.old.watch }
        ensures after { self.new ≡ with_watch_changed watching.after_tick self.old }
    {
        self.listener.tick()
    }

    /// An alive packet came from a processor.
    pub fn hear(&mut self, from: u8)
        ensures { self.new ≡ with_watch_changed (changed_at from watching.neighbour_after_alive) self.old }
    {
        self.listener.hear(from);
    }

    /// A report came from a processor.
    pub fn note(&mut self, from: u8, silent: ProcessorSet)
        ensures { self.new ≡ with_watch_changed (changed_at from (watching.neighbour_after_report silent)) self.old }
    {
        self.listener.on_report(from, silent);
    }

    /// The node has marked a processor.
    pub fn mark(&mut self, processor: u8)
        ensures { self.new ≡ with_watch_changed (changed_at processor watching.neighbour_after_down) self.old }
    {
        self.listener.on_down(processor);
    }

    /// A processor of a site with so many was loaded again.
    pub fn on_reload(&mut self, alloc: Global, processors: u8, loaded: u8)
        requires { NodeCanReload loaded self.old }
        ensures { self.new ≡ node_after_reload processors loaded self.old }
    {
        reload_all(self.ends.as_mut_slice(), alloc, loaded);
        self.holding = count_holding(self.ends.as_slice());
        if self.listener.me() == loaded {
            self.listener = Listener::new(loaded, processors);
        } else {
            self.listener.on_up(loaded);
        }
    }

    /// The processor whose line the node of this number pulls now.
    pub fn line(&self, me: u8) -> Option<u8>
        ensures { result ≡ line_pulled me self.now }
    {
        first_held(&self.listener.watch(), me)
    }

    /// The processor whose line it would pull after a tick made now.
    #[inline(always)]
    pub fn line_after_tick(&self, me: u8) -> Option<u8>
        ensures { result ≡ line_pulled me (with_watch_changed watching.after_tick self.now) }
    {
        if self.listener.is_calm() {
            return None;
        }
        self.line_looked_at(me)
    }

    /// The same, told by its watch after a tick. Out of line, as few ticks need it.
    #[inline(never)]
    fn line_looked_at(&self, me: u8) -> Option<u8>
        ensures { result ≡ line_pulled me (with_watch_changed watching.after_tick self.now) }
    {
        let mut later = self.listener.watch();
        later.tick();
        first_held(&later, me)
    }
}

/// A processor was loaded again: each end of it and with it is a new one.
fn reload_all(ends: &mut [Channel], alloc: Global, loaded: u8)
    requires { (y : ℕ) (e : End) → slice_get ends.old y ≡ Some e → HasIncarnationLeft loaded e }
    ensures { ends.new ≡ map (end_after_reload loaded) ends.old }
{
    for end in ends.iter_mut() {
        end.on_reload(alloc, loaded);
    }
}

/// How many ends hold something, after one that held something or didn't was changed.
fn counted_again(holding: usize, held: bool, holds: bool) -> usize
    requires some { one_if held ≤ holding }
    requires room { holding + one_if holds ≤ 18446744073709551615 + one_if held }
    ensures { result + one_if held ≡ holding + one_if holds }
{
    if held == holds {
        holding
    } else if holds {
        holding + 1
    } else {
        holding - 1
    }
}

/// How many ends hold something.
fn count_holding(ends: &[Channel]) -> usize
    ensures { result ≡ holding_in ends.now }
{
    let mut holding = 0;
    for end in ends {
        holding = counted_again(holding, false, !end.is_empty());
    }
    holding
}

/// The first processor but the node itself of which all agree that it is silent.
fn first_held(watch: &Watch, me: u8) -> Option<u8>
    ensures { result ≡ first_held me watch.now 0 MOST_PROCESSORS }
{
    for processor in 0..MOST_PROCESSORS {
        if is_other_held(watch, me, processor) {
            return Some(processor);
        }
    }
    None
}

fn is_other_held(watch: &Watch, me: u8, processor: u8) -> bool
    ensures { result ≡ (not (processor == me) && is_held processor watch.now) }
{
    processor != me && watch.holds(processor)
}
