ghost use Rattle.std.specs.Prelude.{◌≡◌};
ghost use Rattle.deck_lines.specs.Lines.{words_of};
ghost use Rattle.deck_lines.specs.EventSayingOf.{bus_of, packet_of, is_writes_of, rounds_with, run_of, run_said};
ghost use Rattle.deck_lines.specs.EventSayingOf.{enter_said, deliver_said, lose_said, repeat_said, tick_said};
ghost use Rattle.deck_lines.specs.EventSayingOf.{copies_said, copy_said, drive_named, drive_of, drive_said};
ghost use Rattle.deck_lines.specs.EventSayingOf.{fail_said, reload_said, drain_said, mix_said, mute_said};
ghost use Rattle.deck_lines.specs.EventSayingOf.{until_said, event_said};

use crate::lines::{is_blank, next_word, one_word, three_words, two_words};
use crate::numbers::written_number;
use gd_words::Name;
use schedule::{BusName, DriveChange};

/// The word with which an event line begins.
#[derive(Clone, Copy, PartialEq, Eq)]
pub enum EventKeyword {
    Run,
    Enter,
    Deliver,
    Lose,
    Repeat,
    Tick,
    Fail,
    Reload,
    Drive(DriveChange),
    Drain,
    Mix,
    Mute,
    Until,
}

/// The packet at this position on this bus.
#[derive(Clone, Copy, PartialEq, Eq)]
pub struct PacketPlace {
    pub bus: BusName,
    pub k: u32,
}

/// What an event line says, with names and numbers as they are written.
#[derive(Drop)]
pub enum EventSaying {
    /// One step of a process.
    Run(Name),
    /// So many steps of a process.
    RunTimes {
        name: Name,
        times: u32,
    },
    /// The next request of a terminal.
    Enter(Name),
    Deliver(PacketPlace),
    Lose(PacketPlace),
    Repeat(PacketPlace),
    /// The tick of a node.
    Tick(u32),
    /// The stop of a processor.
    Fail(u32),
    /// A processor is loaded again.
    Reload(u32),
    /// A change of a drive, 0 or 1, of a mirrored disc.
    Drive {
        name: Name,
        drive: u8,
        change: DriveChange,
    },
    /// So many sectors that are copied on a drive, 0 or 1, of a mirrored disc.
    CopyTimes {
        name: Name,
        drive: u8,
        times: u32,
    },
    Drain(u32),
    Mix {
        start: u32,
        rounds: u32,
    },
    Mute {
        processor: u32,
        rounds: u32,
    },
    Until {
        writes: bool,
        count: u32,
        rounds: u32,
    },
}

/// What the parts of an event line say after its first word; none where they are of no form.
pub fn event_said(key: EventKeyword, parts: &[u8]) -> Option<EventSaying>
    ensures { result ≡ event_said (words_of parts.now) key }
{
    match key {
        EventKeyword::Run => run(parts),
        EventKeyword::Enter => enter(parts),
        EventKeyword::Deliver => deliver(parts),
        EventKeyword::Lose => lose(parts),
        EventKeyword::Repeat => repeat(parts),
        EventKeyword::Tick => tick(parts),
        EventKeyword::Fail => fail(parts),
        EventKeyword::Reload => reload(parts),
        EventKeyword::Drive(change) => drive(change, parts),
        EventKeyword::Drain => drain(parts),
        EventKeyword::Mix => mix(parts),
        EventKeyword::Mute => mute(parts),
        EventKeyword::Until => until(parts),
    }
}

fn run(parts: &[u8]) -> Option<EventSaying>
    ensures { result ≡ run_said (words_of parts.now) }
{
    let (word, rest) = next_word(parts)?;
    let name = Name::read(word)?;
    run_of(name, rest)
}

/// How often a process runs: once, or as often as the one word says.
fn run_of(name: Name, parts: &[u8]) -> Option<EventSaying>
    ensures { result ≡ run_of name (words_of parts.now) }
{
    if is_blank(parts) {
        return Some(EventSaying::Run(name));
    }
    let word = one_word(parts)?;
    let times = written_number(word)?;
    Some(EventSaying::RunTimes { name, times })
}

fn enter(parts: &[u8]) -> Option<EventSaying>
    ensures { result ≡ enter_said (words_of parts.now) }
{
    let word = one_word(parts)?;
    let name = Name::read(word)?;
    Some(EventSaying::Enter(name))
}

/// The bus that a word names; none where it names no bus.
fn bus_of(word: &[u8]) -> Option<BusName>
    ensures { result ≡ bus_of word.now }
{
    if word == b"x".as_slice() {
        Some(BusName::X)
    } else if word == b"y".as_slice() {
        Some(BusName::Y)
    } else {
        None
    }
}

fn packet_of(parts: &[u8]) -> Option<PacketPlace>
    ensures { result ≡ packet_of (words_of parts.now) }
{
    let (word, position) = two_words(parts)?;
    let bus = bus_of(word)?;
    let k = written_number(position)?;
    Some(PacketPlace { bus, k })
}

fn deliver(parts: &[u8]) -> Option<EventSaying>
    ensures { result ≡ deliver_said (words_of parts.now) }
{
    let place = packet_of(parts)?;
    Some(EventSaying::Deliver(place))
}

fn lose(parts: &[u8]) -> Option<EventSaying>
    ensures { result ≡ lose_said (words_of parts.now) }
{
    let place = packet_of(parts)?;
    Some(EventSaying::Lose(place))
}

fn repeat(parts: &[u8]) -> Option<EventSaying>
    ensures { result ≡ repeat_said (words_of parts.now) }
{
    let place = packet_of(parts)?;
    Some(EventSaying::Repeat(place))
}

fn tick(parts: &[u8]) -> Option<EventSaying>
    ensures { result ≡ tick_said (words_of parts.now) }
{
    let word = one_word(parts)?;
    let node = written_number(word)?;
    Some(EventSaying::Tick(node))
}

fn fail(parts: &[u8]) -> Option<EventSaying>
    ensures { result ≡ fail_said (words_of parts.now) }
{
    let word = one_word(parts)?;
    let processor = written_number(word)?;
    Some(EventSaying::Fail(processor))
}

fn reload(parts: &[u8]) -> Option<EventSaying>
    ensures { result ≡ reload_said (words_of parts.now) }
{
    let word = one_word(parts)?;
    let processor = written_number(word)?;
    Some(EventSaying::Reload(processor))
}

fn drive(change: DriveChange, parts: &[u8]) -> Option<EventSaying>
    ensures { result ≡ drive_said (words_of parts.now) change }
{
    match change {
        DriveChange::Break | DriveChange::Revive => drive_named(change, parts),
        DriveChange::Copy => copy(parts),
    }
}

/// One sector that is copied, or so many.
fn copy(parts: &[u8]) -> Option<EventSaying>
    ensures { result ≡ copy_said (words_of parts.now) }
{
    match drive_named(DriveChange::Copy, parts) {
        None => copies(parts),
        Some(saying) => Some(saying),
    }
}

/// The number of a drive; none where the word is another number, or none.
fn drive_of(word: &[u8]) -> Option<u8>
    ensures { result ≡ drive_of word.now }
{
    let drive = written_number(word)?;
    if drive < 2 { Some(drive as u8) } else { None }
}

fn drive_named(change: DriveChange, parts: &[u8]) -> Option<EventSaying>
    ensures { result ≡ drive_named change (words_of parts.now) }
{
    let (name, drive) = two_words(parts)?;
    let name = Name::read(name)?;
    let drive = drive_of(drive)?;
    Some(EventSaying::Drive {
        name,
        drive,
        change,
    })
}

fn copies(parts: &[u8]) -> Option<EventSaying>
    ensures { result ≡ copies_said (words_of parts.now) }
{
    let (name, drive, times) = three_words(parts)?;
    let name = Name::read(name)?;
    let drive = drive_of(drive)?;
    let times = written_number(times)?;
    Some(EventSaying::CopyTimes { name, drive, times })
}

fn drain(parts: &[u8]) -> Option<EventSaying>
    ensures { result ≡ drain_said (words_of parts.now) }
{
    let word = one_word(parts)?;
    let rounds = written_number(word)?;
    Some(EventSaying::Drain(rounds))
}

/// A number, and how many rounds.
fn rounds_with(parts: &[u8]) -> Option<(u32, u32)>
    ensures { result ≡ rounds_with (words_of parts.now) }
{
    let (first, rounds) = two_words(parts)?;
    let first = written_number(first)?;
    let rounds = written_number(rounds)?;
    Some((first, rounds))
}

fn mix(parts: &[u8]) -> Option<EventSaying>
    ensures { result ≡ mix_said (words_of parts.now) }
{
    let (start, rounds) = rounds_with(parts)?;
    Some(EventSaying::Mix { start, rounds })
}

fn mute(parts: &[u8]) -> Option<EventSaying>
    ensures { result ≡ mute_said (words_of parts.now) }
{
    let (processor, rounds) = rounds_with(parts)?;
    Some(EventSaying::Mute { processor, rounds })
}

/// Whether writes are counted, or else replies; none where the word names neither.
fn is_writes_of(word: &[u8]) -> Option<bool>
    ensures { result ≡ is_writes_of word.now }
{
    if word == b"W".as_slice() {
        Some(true)
    } else if word == b"R".as_slice() {
        Some(false)
    } else {
        None
    }
}

fn until(parts: &[u8]) -> Option<EventSaying>
    ensures { result ≡ until_said (words_of parts.now) }
{
    let (what, count, rounds) = three_words(parts)?;
    let writes = is_writes_of(what)?;
    let count = written_number(count)?;
    let rounds = written_number(rounds)?;
    Some(EventSaying::Until {
        writes,
        count,
        rounds,
    })
}
