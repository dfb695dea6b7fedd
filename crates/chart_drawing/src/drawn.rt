ghost use Rattle.std.specs.Prelude.{◌≡◌};
ghost use Rattle.chart_drawing.specs.Drawn as spec;
ghost use Rattle.chart_drawing.specs.Drawn.{drawn_by, own_drawn};

use gd_words::limits::TERMINAL_NODE;
use schedule::Event;
use tal_tree::Shown;
use trace_lines::{Fate, Finding, PacketSight};

/// What stands for something that happened at a place.
#[derive(Clone, Copy, PartialEq, Eq, Drop)]
pub enum Sign {
    Dot,
    Cross,
    /// A letter in a circle.
    Letter(u8),
}

/// Where something happened.
#[derive(Clone, Copy, PartialEq, Eq, Drop)]
pub enum Place {
    /// In a node.
    Node(u8),
    /// At the copy of a process in a processor.
    Copy { process: u8, processor: u8 },
    /// At the copy that acts for a process.
    Acting(u8),
}

/// What is drawn of something that an event did.
#[derive(Clone, Copy, PartialEq, Eq, Drop)]
pub enum Drawn {
    Nothing,
    Sign { sign: Sign, place: Place },
    /// The hold line that a node pulls of a processor.
    Hold { node: u8, processor: u8 },
    Packet { packet: PacketSight, fate: Fate },
}

/// What is drawn of one thing that an event did.
pub(crate) fn drawn_by(event: Event, finding: Finding) -> Drawn
    ensures { result ≡ drawn_by event finding }
{
    match finding {
        Finding::Skipped => Drawn::Nothing,
        Finding::StandsStill(_) => Drawn::Nothing,
        Finding::WouldStopSecond(processor) => at_node(Sign::Cross, processor),
        Finding::WouldLoseDisc(process) => at_acting(Sign::Cross, process),
        Finding::Packet {
            packet,
            fate,
            message: _,
        } => Drawn::Packet { packet, fate },
        Finding::Sends {
            sender: _,
            receiver: _,
            last: _,
            message: _,
            again: _,
        } => Drawn::Nothing,
        Finding::Makes {
            process,
            statement: _,
        } => at_acting(Sign::Dot, process),
        Finding::Sets {
            process: _,
            item: _,
            place: _,
            value: _,
        } => Drawn::Nothing,
        Finding::DiscGoesOn(_) => own_drawn(event, Sign::Dot),
        Finding::SendsCheckpoint(_) => own_drawn(event, Sign::Letter(b'C')),
        Finding::PassesCheckpoint => own_drawn(event, Sign::Dot),
        Finding::SendsEverything(_) => own_drawn(event, Sign::Letter(b'C')),
        Finding::EndsSending => own_drawn(event, Sign::Dot),
        Finding::AppliesCheckpoint {
            process,
            processor,
            number: _,
        } => at_copy(Sign::Letter(b'P'), process, processor),
        Finding::Waits {
            process: _,
            processor: _,
            number: _,
        } => Drawn::Nothing,
        Finding::TakesOver {
            process,
            processor,
            era: _,
            statement: _,
        } => at_copy(Sign::Letter(b'T'), process, processor),
        Finding::Stops(processor) => at_node(Sign::Cross, processor),
        Finding::Reloads(processor) => at_node(Sign::Dot, processor),
        Finding::Marks { node, processor: _ } => at_node(Sign::Letter(b'M'), node),
        Finding::Misses { node, processor: _ } => at_node(Sign::Dot, node),
        Finding::FindsSilent { node, processor: _ } => at_node(Sign::Dot, node),
        Finding::Reports { node: _, silent: _ } => Drawn::Nothing,
        Finding::PullsLine { node, processor } => Drawn::Hold { node, processor },
        Finding::IgnoresCheckpoint {
            process,
            processor,
            number: _,
            why: _,
        } => at_copy(Sign::Dot, process, processor),
        Finding::HearsTaken {
            process,
            processor,
            number: _,
        } => at_copy(Sign::Dot, process, processor),
        Finding::Keeps(_) => Drawn::Nothing,
        Finding::HoldsBack(_) => Drawn::Nothing,
        Finding::Enters(_) => at_node(Sign::Letter(b'E'), TERMINAL_NODE),
        Finding::Drive(_) => own_drawn(event, Sign::Letter(b'D')),
    }
}

fn at_node(sign: Sign, node: u8) -> Drawn
    ensures { result ≡ spec.at_node sign node }
{
    Drawn::Sign {
        sign,
        place: Place::Node(node),
    }
}

fn at_acting(sign: Sign, process: u8) -> Drawn
    ensures { result ≡ spec.at_acting sign process }
{
    Drawn::Sign {
        sign,
        place: Place::Acting(process),
    }
}

fn at_copy(sign: Sign, process: u8, processor: u8) -> Drawn
    ensures { result ≡ spec.at_copy sign process processor }
{
    Drawn::Sign {
        sign,
        place: Place::Copy { process, processor },
    }
}

/// What is drawn at the process that an event concerns, if it concerns one.
fn own_drawn(event: Event, sign: Sign) -> Drawn
    ensures { result ≡ own_drawn event sign }
{
    match event {
        Event::Run(process) => at_acting(sign, process),
        Event::Drive(one) => at_acting(sign, one.process),
        Event::Enter(_) => Drawn::Nothing,
        Event::Deliver { bus: _, k: _ } => Drawn::Nothing,
        Event::Lose { bus: _, k: _ } => Drawn::Nothing,
        Event::Repeat { bus: _, k: _ } => Drawn::Nothing,
        Event::Tick(_) => Drawn::Nothing,
        Event::Fail(_) => Drawn::Nothing,
        Event::Reload(_) => Drawn::Nothing,
    }
}

/// What is drawn of something that was shown.
pub(crate) fn drawn_of(shown: &Shown) -> Drawn
    ensures { result ≡ spec.drawn_of shown.now }
{
    match shown {
        Shown::Write {
            process,
            sector: _,
            words: _,
        } => at_acting(Sign::Letter(b'W'), *process),
        Shown::Reply {
            terminal: _,
            number: _,
            words: _,
        } => at_node(Sign::Letter(b'R'), TERMINAL_NODE),
    }
}
