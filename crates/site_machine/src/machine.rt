ghost use Rattle.std.specs.Prelude.{◌≡◌, ◌≤◌, ℕ, [], false, true, is_some, length, reverse, slice_get, IfOk, OnOk};
ghost use Rattle.std.specs.Prelude.{OnErr};
ghost use Rattle.std.specs.Bool.{OnFalse, OnTrue};
ghost use Rattle.std.specs.Option.{option_and_then, option_copied, option_map, unwrap_or};
ghost use Rattle.gd_words.specs.declared.limits.TheConstants.{MOST_PACKETS};
ghost use Rattle.schedule.specs.declared.event.Event.TheVariants as events;
ghost use Rattle.node.specs.machine_states.specs.States.{Settles};
ghost use Rattle.node.specs.machine_states.specs.declared.effect.Effect.TheVariants as effects;
ghost use Rattle.open_links.specs.world_copies.specs.node_copies.specs.ShownCounts.{replies_in, writes_in};
ghost use Rattle.node.specs.Calls.{alive_address};
ghost use Rattle.node.specs.plain_semantics.specs.Openers.{openers_of};
ghost use Rattle.node.specs.packet_wires.specs.Idle.{is_idle};
ghost use Rattle.node.specs.packet_wires.specs.Nodes.{end_at};
ghost use Rattle.node.specs.packet_wires.specs.Play.{count_on, kind_at, packet_at, packeted_at_boot, play, sender_at};
ghost use Rattle.node.specs.packet_wires.specs.Lines.{line_pulled};
ghost use Rattle.node.specs.packet_wires.specs.Wires.{nothing_sent, midst_after_tick};
ghost use Rattle.open_links.specs.world_copies.specs.process_copies.specs.Starting.{IsStartable};
ghost use Rattle.node.specs.world_semantics.specs.disc_device.specs.mirror.specs.States.{drive_state_at};
ghost use Rattle.open_links.specs.world_copies.specs.node_copies.specs.Seen.{drives_on, sectors_on};
ghost use Rattle.open_links.specs.world_copies.specs.Seen.{ArePlaced, drives_in, pairs_in, sectors_of};
ghost use Rattle.node.specs.world_semantics.specs.Kept.{acts_of};
ghost use Rattle.open_links.specs.node_needs.specs.NodeNeeds.{needs_at};
ghost use Rattle.site_machine.specs.Needs.{IsReady};
ghost use Rattle.site_machine.specs.Seen.{closed_state};

use crate::whole::MachineParts;
use alive_regroup::Watch;
use gd_words::NoMemory;
use logs::Shared;
use node::{Channel, Effect, Node};
use open_links::{Disc, Downs, DriveState, NodeLinks, ProcessCopies, Terminal, links_of};
use packet_words::{BusName, Packet, PacketKind};
use schedule::Event;
use std::alloc::Global;
use std::marker::Model;
use tal_tree::{Act, Shown, Site, Who};

/// The machine over packets. Once an allocation was refused to it, it answers so for good.
#[derive(Drop)]
pub struct Machine {
    broken: Option<NoMemory>,
    whole: MachineParts,
}

impl Model for Machine {
    ghost use Rattle.std.specs.Coded.{codes};
    ghost use Rattle.std.specs.Prelude.{is_some};
    ghost use Rattle.tal_tree.specs.contracts.statement.Statement as statement;
    ghost use Rattle.site_machine.specs.Seen.{MachineStanding};

    ghost Value = { MachineStanding };

    ghost coded = { Prim.hlevel (codes, statement.the_row.coded) };

    ghost view = { λ machine. record { is_broken = is_some machine.broken; state = machine.whole } };
}

impl Machine {
    /// The machine at the beginning.
    pub fn boot(alloc: Global, site: &Shared<Site>) -> Result<Machine, NoMemory>
        requires { IsStartable site.now }
        ensures { IfOk result (λ machine. machine ≡ record { is_broken = false; state = packeted_at_boot site.now }) }
    {
        let whole = MachineParts::boot(alloc, site)?;
        Ok(Machine {
            broken: None,
            whole,
        })
    }

    /// Plays one event, and tells what came of it. This is the machine's only step.
    #[inline(always)]
    pub fn event(&mut self, event: Event) -> Result<Effect, NoMemory>
        requires { IsReady self.old.state }
        ensures done { IfOk result (λ effect. Settles (play self.old.state event) self.old.state effect
            self.new.state) }
        ensures whole { IfOk result (λ effect. (self.old.is_broken ≡ false) × (self.new.is_broken ≡ false)) }
        ensures broken { OnErr result (self.new.is_broken ≡ true) }
    {
        if let Some(error) = self.broken {
            return Err(error);
        }
        match self.whole.event(event) {
            Ok(effect) => Ok(effect),
            Err(error) => {
                self.broken = Some(error);
                Err(error)
            }
        }
    }

    /// Delivers the first packet of a bus, if it is an I'm-alive packet; and answers whether it was.
    pub fn deliver_at_once(&mut self, bus: BusName) -> bool
        ensures alive { result ≡ is_some (alive_address (packet_at self.old.state bus 0)) }
        ensures done { OnTrue result (Settles (play self.old.state (events.Deliver bus 0)) self.old.state effects.Done
            self.new.state) }
        ensures same { OnFalse result (self.new ≡ self.old) }
        ensures whole { self.new.is_broken ≡ self.old.is_broken }
    {
        self.whole.deliver_at_once(bus)
    }

    /// How many packets are on a bus.
    pub fn count(&self, bus: BusName) -> usize
        ensures value { result ≡ count_on self.now.state bus }
        ensures few { result ≤ MOST_PACKETS }
    {
        self.whole.wires.count(bus)
    }

    /// The packet at a position of a bus.
    pub fn packet_at(&self, bus: BusName, k: u32) -> Option<&Packet>
        ensures { option_copied result ≡ packet_at self.now.state bus k }
    {
        self.whole.wires.packet_at(bus, k as usize)
    }

    /// The node that sent the packet at a position of a bus.
    pub fn sender_at(&self, bus: BusName, k: u32) -> Option<u8>
        ensures { result ≡ sender_at self.now.state bus k }
    {
        let packet = self.whole.wires.packet_at(bus, k as usize)?;
        Some(packet.sender)
    }

    /// The kind of the packet at a position of a bus.
    pub fn kind_at(&self, bus: BusName, k: u32) -> Option<&PacketKind>
        ensures { option_copied result ≡ kind_at self.now.state bus k }
    {
        let packet = self.whole.wires.packet_at(bus, k as usize)?;
        Some(&packet.kind)
    }

    /// A node, by its number: its ends of channels, and what it knows of the processors.
    pub fn node(&self, node: u8) -> Option<&Node>
        ensures { option_copied result ≡ slice_get self.now.state.wires.nodes node }
    {
        self.whole.wires.node(node)
    }

    /// The end that a node has of its channel with another.
    pub fn end_at(&self, from: u8, to: u8) -> Option<&Channel>
        ensures { option_copied result ≡ end_at self.now.state.wires.nodes from to }
    {
        self.whole.wires.end_at(from, to)
    }

    /// What a node knows of the processors.
    pub fn watch_at(&self, node: u8) -> Option<Watch>
        ensures { result ≡ option_map (λ node. node.watch) (slice_get self.now.state.wires.nodes node) }
    {
        self.whole.wires.watch_at(node)
    }

    /// The processor whose line a node would pull after a tick made now.
    pub fn line_after_tick(&self, node: u8) -> Option<u8>
        ensures { (processors : ℕ) → result ≡ option_and_then (line_pulled node)
            (slice_get (midst_after_tick processors node (nothing_sent self.now.state.wires.nodes)).nodes node) }
    {
        self.whole.wires.line_after_tick(node)
    }

    /// Who opens a process at a place among its openers.
    pub fn opener_at(&self, process: u8, opener: u16) -> Option<Who>
        ensures { result ≡ option_map (λ one. one.who) (slice_get (openers_of self.now.state.site process) opener) }
    {
        self.whole.world.opener_at(process, opener)
    }

    /// Whether nothing is left to do.
    pub fn is_idle(&self) -> bool
        ensures { result ≡ is_idle self.now.state }
    {
        self.whole.is_idle()
    }

    /// How many writes were shown.
    pub fn writes(&self) -> u32
        ensures { result ≡ writes_in self.now.state.world.shown }
    {
        self.whole.world.writes()
    }

    /// How many replies were shown.
    pub fn replies(&self) -> u32
        ensures { result ≡ replies_in self.now.state.world.shown }
    {
        self.whole.world.replies()
    }

    /// The run is closed: what copies still hold is kept.
    pub fn close(&mut self) -> Result<(), NoMemory>
        ensures closed { OnOk result (self.new ≡ record self.old { state = closed_state self.old.state }) }
        ensures whole { OnOk result (self.old.is_broken ≡ false) }
        ensures broken { OnErr result (self.new.is_broken ≡ true) }
    {
        if let Some(error) = self.broken {
            return Err(error);
        }
        match self.whole.close() {
            Ok(()) => Ok(()),
            Err(error) => {
                self.broken = Some(error);
                Err(error)
            }
        }
    }

    /// Which processors have stopped.
    pub fn stopped(&self) -> &[bool]
        ensures { result.now ≡ self.now.state.world.stopped }
    {
        self.whole.world.stopped()
    }

    /// How often each processor was loaded again.
    pub fn reloads(&self) -> &[u8]
        ensures { result.now ≡ self.now.state.world.reloads }
    {
        self.whole.world.reloads()
    }

    /// How many processors there are.
    pub fn processors(&self) -> u8
        ensures { result ≡ length self.now.state.world.stopped }
    {
        self.whole.world.processors()
    }

    /// Which node has marked which processor.
    pub fn downs(&self) -> &Downs
        ensures { result.now ≡ self.now.state.world.downs }
    {
        self.whole.world.downs()
    }

    /// The processes in their places, both copies of each.
    pub fn processes(&self) -> &[ProcessCopies]
        ensures processes { pairs_in result.now ≡ self.now.state.world.processes }
        ensures drives { drives_in result.now ≡ self.now.state.drives }
        ensures placed { ArePlaced self.now.state.site result.now }
    {
        self.whole.world.processes()
    }

    /// How a drive of a process stands; one that isn't there has failed.
    pub fn standing(&self, process: u8, drive: u8) -> DriveState
        ensures { result ≡ drive_state_at (unwrap_or (slice_get self.now.state.drives process) []) drive }
    {
        self.whole.world.standing(process, drive)
    }

    /// The device of a process, if it is a disc: its sectors, and its drives.
    pub fn disc(&self, process: u8) -> Option<&Disc>
        ensures sectors { sectors_on (option_copied result)
            ≡ sectors_of (slice_get self.now.state.world.processes process) }
        ensures drives { drives_on (option_copied result) ≡ unwrap_or (slice_get self.now.state.drives process) [] }
    {
        self.whole.world.disc(process)
    }

    pub fn terminals(&self) -> &[Terminal]
        ensures { result.now ≡ self.now.state.world.terminals }
    {
        self.whole.world.terminals()
    }

    /// The open links of a node.
    pub fn links(&self, node: u8) -> Result<NodeLinks, NoMemory>
        ensures { IfOk result (λ links. links ≡ needs_at self.now.state.site self.now.state.world node) }
    {
        links_of(self.whole.alloc, &self.whole.world, node)
    }

    /// The acts that are kept, in order.
    pub fn acts(&self) -> &[Act]
        ensures { result.now ≡ acts_of self.now.state.world }
    {
        self.whole.world.acts()
    }

    /// What was shown, in order.
    pub fn shown(&self) -> &[Shown]
        ensures { result.now ≡ reverse self.now.state.world.shown }
    {
        self.whole.world.shown()
    }
}

impl MachineParts {
    #[inline(always)]
    fn event(&mut self, event: Event) -> Result<Effect, NoMemory>
        requires { IsReady self.old }
        ensures { IfOk result (λ effect. Settles (play self.old event) self.old effect self.new) }
    {
        match event {
            Event::Run(number) => self.run(number),
            Event::Enter(terminal) => self.enter(terminal),
            Event::Deliver { bus, k } => self.deliver(bus, k),
            Event::Lose { bus, k } => Ok(self.lose(bus, k)),
            Event::Repeat { bus, k } => Ok(self.repeat(bus, k)),
            Event::Tick(node) => self.tick(node),
            Event::Fail(processor) => Ok(self.fail(processor)),
            Event::Reload(processor) => self.reload(processor),
            Event::Drive(turn) => Ok(self.turn(turn)),
        }
    }
}
