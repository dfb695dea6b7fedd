ghost use Rattle.std.specs.Prelude.{◌≡◌, ◌≤◌, length, Some};
ghost use Rattle.schedule.specs.declared.event.Event.TheVariants as event;
ghost use Rattle.schedule.specs.declared.line.Line.TheVariants as line;
ghost use Rattle.deck_reader.specs.EventLineOf.{run_line, run_times_line, enter_line, tick_line, fail_line};
ghost use Rattle.deck_reader.specs.EventLineOf.{copy_times_line, drive_line, event_line, mute_line, reload_line};
ghost use Rattle.deck_reader.specs.Few.{AreFew};

use crate::outline::{Outline, mirror_of, place_of};
use deck_lines::{EventSaying, PacketPlace};
use gd_words::Name;
use gd_words::limits::TERMINAL_NODE;
use schedule::{DriveChange, DriveEvent, Event, Line};

/// The event line that is said; none where it names no process to run, no terminal to enter at or no mirrored disc, a
/// processor or node that isn't there, or no steps.
pub fn event_line(outline: &Outline, saying: EventSaying) -> Option<Line>
    requires few { AreFew outline.now }
    ensures { result ≡ event_line outline.now saying }
{
    match saying {
        EventSaying::Run(name) => run_line(outline, &name),
        EventSaying::RunTimes { name, times } => run_times_line(outline, &name, times),
        EventSaying::Enter(name) => enter_line(outline, &name),
        EventSaying::Deliver(place) => deliver_line(place),
        EventSaying::Lose(place) => lose_line(place),
        EventSaying::Repeat(place) => repeat_line(place),
        EventSaying::Tick(node) => tick_line(outline.processors, node),
        EventSaying::Fail(processor) => fail_line(outline.processors, processor),
        EventSaying::Reload(processor) => reload_line(outline.processors, processor),
        EventSaying::Drive {
            name,
            drive,
            change,
        } => drive_line(outline, &name, drive, change),
        EventSaying::CopyTimes { name, drive, times } => {
            copy_times_line(outline, &name, drive, times)
        }
        EventSaying::Drain(rounds) => Some(Line::Drain(rounds)),
        EventSaying::Mix { start, rounds } => Some(Line::Mix {
            start: u64::from(start),
            rounds,
        }),
        EventSaying::Mute { processor, rounds } => mute_line(outline.processors, processor, rounds),
        EventSaying::Until {
            writes,
            count,
            rounds,
        } => Some(Line::Until {
            writes,
            count,
            rounds,
        }),
    }
}

fn run_line(outline: &Outline, name: &Name) -> Option<Line>
    requires few { AreFew outline.now }
    ensures { result ≡ run_line outline.now name.now }
{
    let place = place_of(&outline.processes, name)?;
    Some(Line::One(Event::Run(place)))
}

fn run_times_line(outline: &Outline, name: &Name, times: u32) -> Option<Line>
    requires few { AreFew outline.now }
    ensures { result ≡ run_times_line outline.now name.now times }
{
    if times < 1 {
        return None;
    }
    let place = place_of(&outline.processes, name)?;
    let event = Event::Run(place);
    Some(Line::Many { event, times })
}

fn drive_line(outline: &Outline, name: &Name, drive: u8, change: DriveChange) -> Option<Line>
    requires few { AreFew outline.now }
    ensures { result ≡ drive_line outline.now name.now drive change }
{
    let process = mirror_of(&outline.processes, name)?;
    Some(Line::One(Event::Drive(DriveEvent {
        process,
        drive,
        change,
    })))
}

fn copy_times_line(outline: &Outline, name: &Name, drive: u8, times: u32) -> Option<Line>
    requires few { AreFew outline.now }
    ensures { result ≡ copy_times_line outline.now name.now drive times }
{
    if times < 1 {
        return None;
    }
    let process = mirror_of(&outline.processes, name)?;
    let event = Event::Drive(DriveEvent {
        process,
        drive,
        change: DriveChange::Copy,
    });
    Some(Line::Many { event, times })
}

fn enter_line(outline: &Outline, name: &Name) -> Option<Line>
    requires few { AreFew outline.now }
    ensures { result ≡ enter_line outline.now name.now }
{
    let place = place_of(&outline.terminals, name)?;
    Some(Line::One(Event::Enter(place)))
}

fn deliver_line(place: PacketPlace) -> Option<Line>
    ensures { result ≡ Some (line.One (event.Deliver place.bus place.k)) }
{
    let PacketPlace { bus, k } = place;
    Some(Line::One(Event::Deliver { bus, k }))
}

fn lose_line(place: PacketPlace) -> Option<Line>
    ensures { result ≡ Some (line.One (event.Lose place.bus place.k)) }
{
    let PacketPlace { bus, k } = place;
    Some(Line::One(Event::Lose { bus, k }))
}

fn repeat_line(place: PacketPlace) -> Option<Line>
    ensures { result ≡ Some (line.One (event.Repeat place.bus place.k)) }
{
    let PacketPlace { bus, k } = place;
    Some(Line::One(Event::Repeat { bus, k }))
}

fn tick_line(processors: u8, node: u32) -> Option<Line>
    ensures { result ≡ tick_line processors node }
{
    if node < u32::from(processors) || node == TERMINAL_NODE as u32 {
        Some(Line::One(Event::Tick(node as u8)))
    } else {
        None
    }
}

fn fail_line(processors: u8, processor: u32) -> Option<Line>
    ensures { result ≡ fail_line processors processor }
{
    if processor < u32::from(processors) {
        Some(Line::One(Event::Fail(processor as u8)))
    } else {
        None
    }
}

fn reload_line(processors: u8, processor: u32) -> Option<Line>
    ensures { result ≡ reload_line processors processor }
{
    if processor < u32::from(processors) {
        Some(Line::One(Event::Reload(processor as u8)))
    } else {
        None
    }
}

fn mute_line(processors: u8, processor: u32, rounds: u32) -> Option<Line>
    ensures { result ≡ mute_line processors processor rounds }
{
    if processor < u32::from(processors) {
        let node = processor as u8;
        Some(Line::Mute { node, rounds })
    } else {
        None
    }
}
