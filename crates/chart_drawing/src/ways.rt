ghost use Rattle.std.specs.Prelude.{◌≡◌, ◌++◌, None, OnOk};
ghost use Rattle.chart_drawing.specs.Ways as spec;
ghost use Rattle.chart_drawing.specs.Ways.{answer_by, begun_at, first_begun, goes_by, goes_with};
ghost use Rattle.chart_drawing.specs.Ways.{last_begun, ways_by};

use gd_words::{List, NoMemory};
use trace_lines::{Fate, Finding, PacketSight, PacketSort};

/// What a node sends a node, from an event on: a message whose last piece has a number, or the acknowledgement of the
/// piece of a number.
#[derive(Clone, Copy, PartialEq, Eq, Drop)]
pub struct Way {
    pub sender: u8,
    pub receiver: u8,
    pub acknowledges: bool,
    pub number: u32,
    pub event: u64,
}

/// Puts behind the ways those that an event begins.
pub(crate) fn put_ways(
    ways: &mut List<Way>,
    event: u64,
    findings: &[Finding],
) -> Result<(), NoMemory>
    ensures { OnOk result (ways.new ≡ ways.old ++ ways_by event findings.now) }
{
    for finding in findings {
        put_way(ways, way_by(event, *finding))?;
    }
    Ok(())
}

fn put_way(ways: &mut List<Way>, way: Option<Way>) -> Result<(), NoMemory>
    ensures { OnOk result (ways.new ≡ ways.old ++ spec.way_or_none way) }
{
    match way {
        None => Ok(()),
        Some(way) => ways.push(way),
    }
}

/// The way that begins with what an event did, if one does.
fn way_by(event: u64, finding: Finding) -> Option<Way>
    ensures { result ≡ spec.way_by event finding }
{
    match finding {
        Finding::Sends {
            sender,
            receiver,
            last,
            message: _,
            again: _,
        } => Some(Way {
            sender,
            receiver,
            acknowledges: false,
            number: last,
            event,
        }),
        Finding::Packet {
            packet,
            fate,
            message: _,
        } => answer_by(event, packet, fate),
        Finding::Skipped => None,
        Finding::StandsStill(_) => None,
        Finding::WouldStopSecond(_) => None,
        Finding::WouldLoseDisc(_) => None,
        Finding::Makes {
            process: _,
            statement: _,
        } => None,
        Finding::Sets {
            process: _,
            item: _,
            place: _,
            value: _,
        } => None,
        Finding::DiscGoesOn(_) => None,
        Finding::SendsCheckpoint(_) => None,
        Finding::PassesCheckpoint => None,
        Finding::SendsEverything(_) => None,
        Finding::EndsSending => None,
        Finding::AppliesCheckpoint {
            process: _,
            processor: _,
            number: _,
        } => None,
        Finding::Waits {
            process: _,
            processor: _,
            number: _,
        } => None,
        Finding::TakesOver {
            process: _,
            processor: _,
            era: _,
            statement: _,
        } => None,
        Finding::Stops(_) => None,
        Finding::Reloads(_) => None,
        Finding::Marks {
            node: _,
            processor: _,
        } => None,
        Finding::Misses {
            node: _,
            processor: _,
        } => None,
        Finding::FindsSilent {
            node: _,
            processor: _,
        } => None,
        Finding::Reports { node: _, silent: _ } => None,
        Finding::PullsLine {
            node: _,
            processor: _,
        } => None,
        Finding::IgnoresCheckpoint {
            process: _,
            processor: _,
            number: _,
            why: _,
        } => None,
        Finding::HearsTaken {
            process: _,
            processor: _,
            number: _,
        } => None,
        Finding::Keeps(_) => None,
        Finding::HoldsBack(_) => None,
        Finding::Enters(_) => None,
        Finding::Drive(_) => None,
    }
}

/// A piece that comes is acknowledged.
fn answer_by(event: u64, packet: PacketSight, fate: Fate) -> Option<Way>
    ensures { result ≡ answer_by event packet fate }
{
    match fate {
        Fate::Came => acknowledgement_of(event, packet),
        Fate::CameAgain => acknowledgement_of(event, packet),
        Fate::Dropped => None,
        Fate::Refused => None,
        Fate::Old => None,
        Fate::Lost => None,
        Fate::Repeated => None,
    }
}

fn acknowledgement_of(event: u64, packet: PacketSight) -> Option<Way>
    ensures { result ≡ spec.acknowledgement_of event packet packet.sort }
{
    match packet.sort {
        PacketSort::Piece(number) => Some(acknowledging(event, packet, number)),
        PacketSort::LastPiece(number) => Some(acknowledging(event, packet, number)),
        PacketSort::Acknowledgement(_) => None,
        PacketSort::Alive => None,
    }
}

fn acknowledging(event: u64, packet: PacketSight, number: u32) -> Way
    ensures { result ≡ spec.acknowledging event packet number }
{
    Way {
        sender: packet.receiver,
        receiver: packet.sender,
        acknowledges: true,
        number,
        event,
    }
}

/// The event at which a packet was sent, if that was told.
pub(crate) fn begun_at(packet: PacketSight, ways: &[Way]) -> Option<u64>
    ensures { result ≡ begun_at packet ways.now }
{
    match packet.sort {
        PacketSort::Piece(_) => first_begun(packet, ways),
        PacketSort::LastPiece(_) => first_begun(packet, ways),
        PacketSort::Acknowledgement(_) => last_begun(packet, ways),
        PacketSort::Alive => None,
    }
}

/// The event of the last way that a packet goes by.
fn last_begun(packet: PacketSight, ways: &[Way]) -> Option<u64>
    ensures { result ≡ last_begun packet None ways.now }
{
    let mut left = ways;
    let mut found = None;
    while let Some((way, rest)) = left.split_first() {
        if goes_by(packet, way) {
            found = Some(way.event);
        }
        left = rest;
    }
    found
}

/// The event of the first way that a packet goes by.
fn first_begun(packet: PacketSight, ways: &[Way]) -> Option<u64>
    ensures { result ≡ first_begun packet ways.now }
{
    let mut left = ways;
    while let Some((way, rest)) = left.split_first() {
        if goes_by(packet, way) {
            return Some(way.event);
        }
        left = rest;
    }
    None
}

/// Whether a packet goes by a way.
fn goes_by(packet: PacketSight, way: &Way) -> bool
    ensures { result ≡ goes_by packet way.now }
{
    packet.sender == way.sender && packet.receiver == way.receiver && goes_with(packet.sort, way)
}

/// Whether a packet of this sort goes with a message: a piece does with the one that ends with it or behind it.
fn goes_with(sort: PacketSort, way: &Way) -> bool
    ensures { result ≡ goes_with sort way.now }
{
    match sort {
        PacketSort::Piece(number) => !way.acknowledges && number <= way.number,
        PacketSort::LastPiece(number) => !way.acknowledges && number <= way.number,
        PacketSort::Acknowledgement(number) => way.acknowledges && number == way.number,
        PacketSort::Alive => false,
    }
}
