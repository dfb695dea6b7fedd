ghost use Rattle.std.specs.Prelude.{◌≡◌, false, Bool, IfOk, None, Some};
ghost use Rattle.std.specs.Option.{option_copied};
ghost use Rattle.site_machine.specs.packet_wires.specs.Play.{packeted_at_boot};
ghost use Rattle.site_machine.specs.packet_wires.specs.Wires as wires;
ghost use Rattle.site_machine.specs.process_copies.specs.Starting.{IsStartable};
ghost use Rattle.site_machine.specs.Needs.{IsReady};
ghost use Rattle.packet_runs.specs.Runs.{concerned, is_alive, packet_rules, sender_of};

use gd_words::NoMemory;
use logs::Shared;
use packet_words::{BusName, Packet, PacketKind};
use player::Player;
use schedule::{Counts, Event};
use schedule_loop::ScheduleMachine;
use site_machine::{Effect, Machine};
use std::alloc::Global;
use tal_tree::Site;

/// The machine over packets, as a schedule is played on it.
#[derive(Drop)]
pub struct PlayedPackets {
    pub machine: Machine,
}

impl PlayedPackets {
    /// The machine at the beginning.
    pub fn boot(alloc: Global, site: &Shared<Site>) -> Result<PlayedPackets, NoMemory>
        requires { IsStartable site.now }
        ensures { IfOk result (λ packets. packets.machine
            ≡ record { is_broken = false; state = packeted_at_boot site.now }) }
    {
        let machine = Machine::boot(alloc, site)?;
        Ok(PlayedPackets { machine })
    }

    /// The packet that the next event concerns where the line goes on.
    fn concerned(&self, player: &Player, x: u32, y: u32) -> Option<&Packet>
        ensures { option_copied result ≡ concerned self.now.machine.state x y player.now }
    {
        let (bus, k) = player.aim(x, y)?;
        self.machine.packet_at(bus, k)
    }
}

impl ScheduleMachine for PlayedPackets {
    ghost Wires = { wires.Wires };

    ghost rules = { packet_rules };

    ghost is_ready = { IsReady };

    ghost state = { λ packets. packets.machine.state };

    ghost is_broken = { λ packets. packets.machine.is_broken };

    #[inline(always)]
    fn event(&mut self, event: Event) -> Result<Effect, NoMemory> {
        self.machine.event(event)
    }

    fn deliver_at_once(&mut self, bus: BusName) -> bool {
        self.machine.deliver_at_once(bus)
    }

    #[inline(always)]
    fn counts(&self, player: &Player, idle: bool) -> Counts {
        let x = self.machine.count(BusName::X) as u32;
        let y = self.machine.count(BusName::Y) as u32;
        let packet = self.concerned(player, x, y);
        Counts {
            x,
            y,
            alive: is_alive(packet),
            sender: sender_of(packet),
            idle,
            writes: self.machine.writes(),
            replies: self.machine.replies(),
        }
    }

    fn tally(&self, idle: bool) -> Counts {
        Counts {
            x: self.machine.count(BusName::X) as u32,
            y: self.machine.count(BusName::Y) as u32,
            alive: false,
            sender: 0,
            idle,
            writes: self.machine.writes(),
            replies: self.machine.replies(),
        }
    }

    fn is_idle(&self) -> bool {
        self.machine.is_idle()
    }

    fn close(&mut self) -> Result<(), NoMemory> {
        self.machine.close()
    }
}

/// Whether this is an alive packet.
fn is_alive(packet: Option<&Packet>) -> bool
    ensures { result ≡ is_alive (option_copied packet.entry) }
{
    match packet {
        None => false,
        Some(packet) => matches!(packet.kind, PacketKind::Alive),
    }
}

/// The node that sent a packet, or node 0 where there is none.
fn sender_of(packet: Option<&Packet>) -> u8
    ensures { result ≡ sender_of (option_copied packet.entry) }
{
    match packet {
        None => 0,
        Some(packet) => packet.sender,
    }
}
