ghost use Rattle.std.specs.Prelude.{◌≡◌};
ghost use Rattle.std.specs.Option.{option_copied};
ghost use Rattle.world_semantics.specs.World.{is_running};
ghost use Rattle.event_findings.specs.Packets as spec;
ghost use Rattle.event_findings.specs.Packets.{delivered_fate, fate_of, had_come, has_piece, is_last, is_last_sort};
ghost use Rattle.event_findings.specs.Packets.{message_of, named_packet, outstanding_at, packet_found, sight_of};
ghost use Rattle.event_findings.specs.Packets.{sort_of};
ghost use Rattle.event_findings.specs.Packets.{current_fate, end_of, taken_in, words_for};
ghost use Rattle.machine_views.specs.site_machine.specs.packet_wires.specs.Play.{is_current_at};

use crate::messages::message_named;
use gd_words::List;
use gd_words::limits::TERMINAL_NODE;
use link_control::Channel;
use machine_views::Machine;
use packet_words::{Packet, PacketKind};
use schedule::Event;
use trace_lines::{Fate, Finding, MessageName, PacketSight, PacketSort};

/// What becomes of the packet that an event names, if there is one.
pub(crate) fn named_found(machine: &Machine, event: Event) -> Option<Finding>
    ensures { result ≡ spec.named_found machine.now.state event }
{
    match named_packet(machine, event) {
        None => None,
        Some(packet) => Some(packet_found(machine, event, packet)),
    }
}

/// The packet that an event names.
fn named_packet(machine: &Machine, event: Event) -> Option<&Packet>
    ensures { option_copied result ≡ named_packet machine.now.state event }
{
    match event {
        Event::Deliver { bus, k } => machine.packet_at(bus, k),
        Event::Lose { bus, k } => machine.packet_at(bus, k),
        Event::Repeat { bus, k } => machine.packet_at(bus, k),
        Event::Run(_) => None,
        Event::Enter(_) => None,
        Event::Tick(_) => None,
        Event::Fail(_) => None,
        Event::Reload(_) => None,
        Event::Drive(_) => None,
    }
}

fn packet_found(machine: &Machine, event: Event, packet: &Packet) -> Finding
    ensures { result ≡ packet_found machine.now.state event packet.now }
{
    let sight = sight_of(packet);
    Finding::Packet {
        packet: sight,
        fate: fate_of(machine, event, packet),
        message: message_of(machine, packet),
    }
}

/// The message of which a packet is a piece, if its sender has that outstanding.
pub(crate) fn message_of(machine: &Machine, packet: &Packet) -> Option<MessageName>
    ensures { result ≡ message_of machine.now.state packet.now }
{
    let end = end_of(packet, machine.end_at(packet.sender, packet.receiver));
    let words = words_for(&packet.kind, end)?;
    message_named(machine, words.as_slice())
}

/// The end that sent a packet, unless it was made new since.
fn end_of<'a>(packet: &Packet, end: Option<&'a Channel>) -> Option<&'a Channel>
    ensures { option_copied result ≡ end_of packet.now (option_copied end.entry) }
{
    let end = end?;
    if end.is_own(packet) { Some(end) } else { None }
}

fn words_for<'a>(kind: &PacketKind, end: Option<&'a Channel>) -> Option<&'a List<i16>>
    ensures { option_copied result ≡ words_for kind.now (option_copied end.entry) }
{
    match kind {
        PacketKind::Alive => None,
        PacketKind::Piece { number, piece: _ } => outstanding_at(*number, end),
        PacketKind::Acknowledgement { number: _ } => None,
    }
}

/// The words of the message of which its sender has the piece of this number outstanding.
fn outstanding_at(number: u32, end: Option<&Channel>) -> Option<&List<i16>>
    ensures { option_copied result ≡ outstanding_at number (option_copied end.entry) }
{
    match end {
        None => None,
        Some(end) => {
            if number == end.sender().numbered() {
                end.sender().message(0)
            } else {
                None
            }
        }
    }
}

pub(crate) fn sight_of(packet: &Packet) -> PacketSight
    ensures { result ≡ sight_of packet.now }
{
    PacketSight {
        sender: packet.sender,
        receiver: packet.receiver,
        sort: sort_of(&packet.kind),
    }
}

pub(crate) fn sort_of(kind: &PacketKind) -> PacketSort
    ensures { result ≡ sort_of kind.now }
{
    match kind {
        PacketKind::Alive => PacketSort::Alive,
        PacketKind::Piece { number, piece } => {
            if piece.last {
                PacketSort::LastPiece(*number)
            } else {
                PacketSort::Piece(*number)
            }
        }
        PacketKind::Acknowledgement { number } => PacketSort::Acknowledgement(*number),
    }
}

pub(crate) fn fate_of(machine: &Machine, event: Event, packet: &Packet) -> Fate
    ensures { result ≡ fate_of machine.now.state event packet.now }
{
    match event {
        Event::Lose { bus: _, k: _ } => Fate::Lost,
        Event::Repeat { bus: _, k: _ } => Fate::Repeated,
        Event::Deliver { bus: _, k: _ } => delivered_fate(machine, packet),
        Event::Run(_) => Fate::Came,
        Event::Enter(_) => Fate::Came,
        Event::Tick(_) => Fate::Came,
        Event::Fail(_) => Fate::Came,
        Event::Reload(_) => Fate::Came,
        Event::Drive(_) => Fate::Came,
    }
}

/// What becomes of a packet that is delivered.
fn delivered_fate(machine: &Machine, packet: &Packet) -> Fate
    ensures { result ≡ delivered_fate machine.now.state packet.now }
{
    if is_running(machine.stopped(), packet.receiver) {
        current_fate(machine, packet)
    } else {
        Fate::Dropped
    }
}

/// What becomes of a packet that comes to a node that runs.
fn current_fate(machine: &Machine, packet: &Packet) -> Fate
    ensures { result ≡ current_fate machine.now.state packet.now }
{
    let end = machine.end_at(packet.receiver, packet.sender);
    if !is_current_at(packet, end) {
        Fate::Old
    } else if machine.downs().has(packet.receiver, packet.sender) {
        Fate::Refused
    } else {
        taken_in(had_come(sort_of(&packet.kind), end))
    }
}

/// Whether a packet bears the incarnations that an end knows, where there is one.
fn is_current_at(packet: &Packet, end: Option<&Channel>) -> bool
    ensures { result ≡ is_current_at packet.now (option_copied end.entry) }
{
    match end {
        None => false,
        Some(end) => end.is_current(packet),
    }
}

/// What becomes of a packet that a node takes in.
fn taken_in(before: bool) -> Fate
    ensures { result ≡ taken_in before }
{
    if before { Fate::CameAgain } else { Fate::Came }
}

fn had_come(sort: PacketSort, end: Option<&Channel>) -> bool
    ensures { result ≡ had_come sort (option_copied end.entry) }
{
    match sort {
        PacketSort::Alive => false,
        PacketSort::Piece(number) => has_piece(number, end),
        PacketSort::LastPiece(number) => has_piece(number, end),
        PacketSort::Acknowledgement(_) => false,
    }
}

/// Whether a piece of this number came to an end before.
fn has_piece(number: u32, end: Option<&Channel>) -> bool
    ensures { result ≡ has_piece number (option_copied end.entry) }
{
    match end {
        None => false,
        Some(end) => number <= end.kept(),
    }
}

/// Whether a node runs.
fn is_running(stopped: &[bool], node: u8) -> bool
    ensures { result ≡ is_running stopped.now node }
{
    match stopped.get(usize::from(node)) {
        None => node == TERMINAL_NODE,
        Some(stopped) => !*stopped,
    }
}

/// Whether an event may change the world.
pub(crate) fn may_change(machine: &Machine, event: Event) -> bool
    ensures { result ≡ spec.may_change machine.now.state event }
{
    match event {
        Event::Deliver { bus, k } => is_last(machine.packet_at(bus, k)),
        Event::Lose { bus: _, k: _ } => false,
        Event::Repeat { bus: _, k: _ } => false,
        Event::Run(_) => true,
        Event::Enter(_) => true,
        Event::Tick(_) => true,
        Event::Fail(_) => true,
        Event::Reload(_) => true,
        Event::Drive(_) => false,
    }
}

/// Whether this is the last piece of a message.
fn is_last(packet: Option<&Packet>) -> bool
    ensures { result ≡ is_last (option_copied packet.entry) }
{
    match packet {
        None => false,
        Some(packet) => is_last_sort(sort_of(&packet.kind)),
    }
}

fn is_last_sort(sort: PacketSort) -> bool
    ensures { result ≡ is_last_sort sort }
{
    match sort {
        PacketSort::LastPiece(_) => true,
        PacketSort::Piece(_) => false,
        PacketSort::Acknowledgement(_) => false,
        PacketSort::Alive => false,
    }
}
