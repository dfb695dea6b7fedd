ghost use Rattle.std.specs.Prelude.{◌≡◌};
ghost use Rattle.std.specs.Option.{option_copied};
ghost use Rattle.event_findings.specs.HandedOver.{awaits_taken, copy_at, done_by, follows, handed_found, handed_over};
ghost use Rattle.event_findings.specs.HandedOver.{handed_since, handed_with, has_come, ignored_by, makes_whole};
ghost use Rattle.event_findings.specs.HandedOver.{taken_by};
ghost use Rattle.event_findings.specs.HandedOver.{why_as, why_watching};

use crate::noting::HandedOver;
use crate::packets::{fate_of, message_of, sort_of};
use link_control::Channel;
use machine_views::{CopyView, Machine, View};
use packet_words::Packet;
use schedule::Event;
use trace_lines::{Fate, Finding, MessageName, PacketSort, WhyIgnored};
use world_semantics::Role;

/// The message that an event makes whole, and the node to which it comes.
pub(crate) fn handed_over(machine: &Machine, event: Event) -> Option<HandedOver>
    ensures { result ≡ handed_over machine.now.state event }
{
    match event {
        Event::Deliver { bus, k } => {
            let packet = machine.packet_at(bus, k)?;
            handed_with(machine, event, packet)
        }
        Event::Run(_) => None,
        Event::Enter(_) => None,
        Event::Lose { bus: _, k: _ } => None,
        Event::Repeat { bus: _, k: _ } => None,
        Event::Tick(_) => None,
        Event::Fail(_) => None,
        Event::Reload(_) => None,
        Event::Drive(_) => None,
    }
}

/// The message that a packet makes whole at the node to which it comes.
fn handed_with(machine: &Machine, event: Event, packet: &Packet) -> Option<HandedOver>
    ensures { result ≡ handed_with machine.now.state event packet.now }
{
    if !has_come(fate_of(machine, event, packet)) {
        return None;
    }
    if !makes_whole(
        sort_of(&packet.kind),
        machine.end_at(packet.receiver, packet.sender),
    ) {
        return None;
    }
    let message = message_of(machine, packet)?;
    Some(HandedOver {
        node: packet.receiver,
        message,
    })
}

fn has_come(fate: Fate) -> bool
    ensures { result ≡ has_come fate }
{
    match fate {
        Fate::Came => true,
        Fate::CameAgain => false,
        Fate::Dropped => false,
        Fate::Refused => false,
        Fate::Old => false,
        Fate::Lost => false,
        Fate::Repeated => false,
    }
}

/// Whether a packet makes a message whole at an end.
fn makes_whole(sort: PacketSort, end: Option<&Channel>) -> bool
    ensures { result ≡ makes_whole sort (option_copied end.entry) }
{
    match sort {
        PacketSort::LastPiece(number) => follows(number, end),
        PacketSort::Piece(_) => false,
        PacketSort::Acknowledgement(_) => false,
        PacketSort::Alive => false,
    }
}

/// Whether a piece follows the last one that came to an end.
fn follows(number: u32, end: Option<&Channel>) -> bool
    ensures { result ≡ follows number (option_copied end.entry) }
{
    match end {
        None => false,
        Some(end) => u64::from(number) == u64::from(end.kept()) + 1,
    }
}

/// What is told of the message that is handed over, by the copies before the event.
pub(crate) fn handed_since(handed: Option<HandedOver>, before: &Option<View>) -> Option<Finding>
    ensures { result ≡ handed_since handed before.now }
{
    match before {
        None => None,
        Some(before) => handed_found(handed, before),
    }
}

fn handed_found(handed: Option<HandedOver>, before: &View) -> Option<Finding>
    ensures { result ≡ handed_found handed before.now }
{
    let handed = handed?;
    done_by(handed.node, before.copies.as_slice(), handed.message)
}

fn done_by(node: u8, copies: &[CopyView], message: MessageName) -> Option<Finding>
    ensures { result ≡ done_by node copies.now message }
{
    match message {
        MessageName::Checkpoint {
            process,
            era,
            number,
        } => {
            let copy = copy_at(process, node, copies)?;
            ignored_by(era, number, copy)
        }
        MessageName::Taken {
            process,
            era,
            number,
        } => {
            let copy = copy_at(process, node, copies)?;
            taken_by(era, number, copy)
        }
        MessageName::Request {
            asker: _,
            process: _,
            number: _,
        } => None,
        MessageName::Reply {
            asker: _,
            process: _,
            number: _,
        } => None,
        MessageName::Report { node: _, silent: _ } => None,
        MessageName::Down(_) => None,
    }
}

/// The copy of a process in a processor.
fn copy_at(process: u8, processor: u8, copies: &[CopyView]) -> Option<&CopyView>
    ensures { option_copied result ≡ copy_at process processor copies.now }
{
    let mut left = copies;
    while let Some((copy, rest)) = left.split_first() {
        if copy.process == process && copy.processor == processor {
            return Some(copy);
        }
        left = rest;
    }
    None
}

fn ignored_by(era: u32, number: u32, copy: &CopyView) -> Option<Finding>
    ensures { result ≡ ignored_by era number copy.now }
{
    let why = why_as(copy, era, number)?;
    Some(Finding::IgnoresCheckpoint {
        process: copy.process,
        processor: copy.processor,
        number,
        why,
    })
}

/// Why a copy ignores a checkpoint, if it does.
fn why_as(copy: &CopyView, era: u32, number: u32) -> Option<WhyIgnored>
    ensures { result ≡ why_as copy.now era number copy.now.role }
{
    match copy.role {
        Role::Acting => Some(WhyIgnored::Acts),
        Role::Watching | Role::Blank => why_watching(copy, era, number),
        Role::Gone => None,
    }
}

fn why_watching(copy: &CopyView, era: u32, number: u32) -> Option<WhyIgnored>
    ensures { result ≡ why_watching copy.now era number }
{
    if era != copy.era {
        Some(WhyIgnored::OtherEra)
    } else if u64::from(number) == u64::from(copy.number) + 1 {
        None
    } else {
        Some(WhyIgnored::NotNext)
    }
}

fn taken_by(era: u32, number: u32, copy: &CopyView) -> Option<Finding>
    ensures { result ≡ taken_by era number copy.now }
{
    if awaits_taken(era, number, copy) {
        Some(Finding::HearsTaken {
            process: copy.process,
            processor: copy.processor,
            number,
        })
    } else {
        None
    }
}

/// Whether it is the checkpoint at which a copy stands that was taken.
fn awaits_taken(era: u32, number: u32, copy: &CopyView) -> bool
    ensures { result ≡ awaits_taken era number copy.now }
{
    copy.sent && era == copy.era && number == copy.number
}
