ghost use Rattle.std.specs.Prelude.{◌≡◌, ◌++◌, map, IfOk, OnOk};
ghost use Rattle.std.specs.Option.{option_copied, option_map};
ghost use Rattle.machine_views.specs.site_machine.specs.packet_wires.specs.Play.{packet_at};
ghost use Rattle.event_findings.specs.Sends as spec;
ghost use Rattle.event_findings.specs.Sends.{before_first, count_at, last_behind, queued_at, queued_for, sender_of};
ghost use Rattle.event_findings.specs.Sends.{sends, sends_behind, sends_of, sends_since, sends_unless};
ghost use Rattle.event_findings.specs.Sends.{is_again, is_asked, sends_again, sends_named};
ghost use Rattle.machine_views.specs.Views.{acting_of};

use crate::messages::message_named;
use crate::noting::Queued;
use gd_words::limits::TERMINAL_NODE;
use gd_words::{List, NoMemory};
use link_control::{Channel, Sender};
use machine_views::{Machine, View, acting_of};
use schedule::{BusName, Event};
use std::alloc::Global;
use trace_lines::{Finding, MessageName};

/// The nodes: 16 processors and the node of the terminals.
const NODES: [u8; 17] = [0, 1, 2, 3, 4, 5, 6, 7, 8, 9, 10, 11, 12, 13, 14, 15, 16];

/// What waits at the node at which an event sends.
pub(crate) fn queued_by(
    alloc: Global,
    machine: &Machine,
    event: Event,
    view: &View,
) -> Result<List<Queued>, NoMemory>
    ensures { IfOk result (λ queued. queued ≡ queued_at machine.now.state.wires.nodes
        (sends_again event) (sender_of machine.now.state event view.now)) }
{
    match sender_of(machine, event, view) {
        None => Ok(List::new(alloc)),
        Some(from) => queued_from(alloc, machine, sends_again(event), from, NODES.as_slice()),
    }
}

/// What waits at a node for each of these.
fn queued_from(
    alloc: Global,
    machine: &Machine,
    again: bool,
    from: u8,
    nodes: &[u8],
) -> Result<List<Queued>, NoMemory>
    ensures { IfOk result (λ queued. queued ≡ map (queued_for machine.now.state.wires.nodes again from) nodes.now) }
{
    let mut queued = List::new(alloc);
    for to in nodes {
        queued.push(queued_for(machine, again, from, *to))?;
    }
    Ok(queued)
}

fn queued_for(machine: &Machine, again: bool, from: u8, to: u8) -> Queued
    ensures { result ≡ queued_for machine.now.state.wires.nodes again from to }
{
    Queued {
        from,
        to,
        count: count_at(machine.end_at(from, to)),
        again,
    }
}

/// How many messages wait at an end, if there is one.
fn count_at(end: Option<&Channel>) -> usize
    ensures { result ≡ count_at (option_copied end.entry) }
{
    match end {
        None => 0,
        Some(end) => end.sender().count(),
    }
}

/// The node at which an event sends, if it may send.
fn sender_of(machine: &Machine, event: Event, view: &View) -> Option<u8>
    ensures { result ≡ sender_of machine.now.state event view.now }
{
    match event {
        Event::Run(process) => processor_of(process, view),
        Event::Enter(_) => Some(TERMINAL_NODE),
        Event::Deliver { bus, k } => receiver_of(machine, bus, k),
        Event::Lose { bus: _, k: _ } => None,
        Event::Repeat { bus: _, k: _ } => None,
        Event::Tick(node) => Some(node),
        Event::Fail(_) => None,
        Event::Reload(_) => None,
        Event::Drive(_) => None,
    }
}

fn processor_of(process: u8, view: &View) -> Option<u8>
    ensures { result ≡ spec.processor_of (acting_of process view.now.copies) }
{
    let copy = acting_of(usize::from(process), view.copies.as_slice())?;
    Some(copy.processor)
}

fn receiver_of(machine: &Machine, bus: BusName, k: u32) -> Option<u8>
    ensures { result ≡ option_map (λ packet. packet.receiver) (packet_at machine.now.state bus k) }
{
    let packet = machine.packet_at(bus, k)?;
    Some(packet.receiver)
}

/// Puts all behind the findings that was sent since so many messages waited.
pub(crate) fn put_sends(
    findings: &mut List<Finding>,
    machine: &Machine,
    queued: &[Queued],
) -> Result<(), NoMemory>
    ensures { OnOk result (findings.new ≡ findings.old ++ sends_since machine.now.state queued.now) }
{
    for one in queued {
        put_sends_of(findings, machine, *one)?;
    }
    Ok(())
}

fn put_sends_of(
    findings: &mut List<Finding>,
    machine: &Machine,
    queued: Queued,
) -> Result<(), NoMemory>
    ensures { OnOk result (findings.new ≡ findings.old ++ sends_of machine.now.state queued) }
{
    match machine.end_at(queued.from, queued.to) {
        None => Ok(()),
        Some(end) => put_sends_behind(
            findings,
            machine,
            queued,
            before_first(end.sender()),
            end.sender(),
        ),
    }
}

/// Puts the messages behind the findings that are sent among those that wait behind a piece of this number.
#[tactic(auto, using(crate::proofs::Queues::told_to_end, crate::proofs::Queues::told_to_none))]
fn put_sends_behind(
    findings: &mut List<Finding>,
    machine: &Machine,
    queued: Queued,
    before: u32,
    sender: &Sender,
) -> Result<(), NoMemory>
    ensures { OnOk result (findings.new ≡ findings.old
        ++ sends_behind machine.now.state.site queued before queued.count sender.now.queue) }
{
    let mut number = before;
    let mut waited = queued.count;
    for place in 0..sender.count() {
        let Some(words) = sender.message(place) else {
            return Ok(());
        };
        number = last_behind(number, words.as_slice());
        put_unless(findings, machine, queued, waited, number, words.as_slice())?;
        waited = waited.saturating_sub(1);
    }
    Ok(())
}

/// Puts a message behind the findings, unless it is one of so many that waited before.
fn put_unless(
    findings: &mut List<Finding>,
    machine: &Machine,
    queued: Queued,
    waited: usize,
    last: u32,
    words: &[i16],
) -> Result<(), NoMemory>
    ensures { OnOk result (findings.new ≡ findings.old
        ++ sends_unless machine.now.state.site queued waited last words.now) }
{
    if waited == 0 {
        findings.push(sends(machine, queued, last, words))?;
    }
    Ok(())
}

fn sends(machine: &Machine, queued: Queued, last: u32, words: &[i16]) -> Finding
    ensures { result ≡ sends machine.now.state.site queued last words.now }
{
    sends_named(queued, last, message_named(machine, words))
}

fn sends_named(queued: Queued, last: u32, message: Option<MessageName>) -> Finding
    ensures { result ≡ sends_named queued last message }
{
    Finding::Sends {
        sender: queued.from,
        receiver: queued.to,
        last,
        message,
        again: is_again(queued.again, message),
    }
}

fn is_again(again: bool, message: Option<MessageName>) -> bool
    ensures { result ≡ is_again again message }
{
    match message {
        None => false,
        Some(message) => again && is_asked(message),
    }
}

/// Whether a message may be one that is sent again: a request or a reply.
fn is_asked(message: MessageName) -> bool
    ensures { result ≡ is_asked message }
{
    match message {
        MessageName::Request {
            asker: _,
            process: _,
            number: _,
        } => true,
        MessageName::Reply {
            asker: _,
            process: _,
            number: _,
        } => true,
        MessageName::Checkpoint {
            process: _,
            era: _,
            number: _,
        } => false,
        MessageName::Taken {
            process: _,
            era: _,
            number: _,
        } => false,
        MessageName::Report { node: _, silent: _ } => false,
        MessageName::Down(_) => false,
    }
}

/// Whether a request or a reply that an event sends is sent again.
fn sends_again(event: Event) -> bool
    ensures { result ≡ sends_again event }
{
    match event {
        Event::Deliver { bus: _, k: _ } => true,
        Event::Tick(_) => true,
        Event::Run(_) => false,
        Event::Enter(_) => false,
        Event::Lose { bus: _, k: _ } => false,
        Event::Repeat { bus: _, k: _ } => false,
        Event::Fail(_) => false,
        Event::Reload(_) => false,
        Event::Drive(_) => false,
    }
}

/// The number of a message's last piece, behind a piece of this number.
fn last_behind(number: u32, words: &[i16]) -> u32
    ensures { result ≡ last_behind number words.now }
{
    let pieces = words.len().saturating_sub(1) / 10 + 1;
    ((u64::from(number) + pieces as u64) % 4_294_967_296) as u32
}

/// The number of the piece before the first one of the oldest message that waits.
fn before_first(sender: &Sender) -> u32
    ensures { result ≡ before_first sender.now }
{
    sender
        .numbered()
        .saturating_sub(sender.place())
        .saturating_sub(1)
}
