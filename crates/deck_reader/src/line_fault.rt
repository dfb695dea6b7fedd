ghost use Rattle.std.specs.Prelude.{◌≡◌};
ghost use Rattle.deck_reader.specs.LineFaults.{heading_of, disc_of, terminal_of, more_singles, more_rounds, tick_asks};
ghost use Rattle.deck_reader.specs.LineFaults.{processor_asks, mute_asks, times_asks, asks};

use crate::outline::{
    Body, Heading, Outline, ProcessLines, Sums, TerminalLines, is_new, process_with,
};
use deck_lines::{EventSaying, Placing};
use gd_words::limits::{
    MOST_PROCESSES, MOST_ROUNDS, MOST_SECTORS, MOST_SINGLES, MOST_TERMINALS, TERMINAL_NODE,
};
use gd_words::{List, Name};
use std::alloc::Global;
use tal_tree::DeckLimit;

/// Why a line can't stand where it does.
#[derive(Clone, Copy, PartialEq, Eq, Drop)]
pub enum LineFault {
    /// It is of no form that may stand there.
    Form,
    NameTwice,
    SameProcessor,
    NoProcessor,
    /// It is past this limit.
    Limit(DeckLimit),
    /// It is the last line, and END hasn't come.
    NoEnd,
}

/// The heading of one more process.
pub fn heading_of(outline: &Outline, placing: Placing) -> Result<Heading, LineFault>
    ensures { result ≡ heading_of outline.now placing }
{
    let Placing {
        name,
        primary,
        backup,
    } = placing;
    let count = u32::from(outline.processors);
    if !is_new(outline, &name) {
        return Err(LineFault::NameTwice);
    }
    if primary == backup {
        return Err(LineFault::SameProcessor);
    }
    if count <= primary {
        return Err(LineFault::NoProcessor);
    }
    if count <= backup {
        return Err(LineFault::NoProcessor);
    }
    if MOST_PROCESSES <= outline.processes.len() {
        return Err(LineFault::Limit(DeckLimit::Processes));
    }
    Ok(Heading {
        name,
        primary: primary as u8,
        backup: backup as u8,
    })
}

/// The disc that the line declares, or the line's fault.
pub fn disc_of(
    outline: &Outline,
    placing: Placing,
    sectors: u32,
    mirrored: bool,
) -> Result<(Name, ProcessLines), LineFault>
    ensures { result ≡ disc_of outline.now placing sectors mirrored }
{
    let heading = heading_of(outline, placing)?;
    if sectors < 1 {
        return Err(LineFault::Limit(DeckLimit::Sectors));
    }
    if MOST_SECTORS < sectors {
        return Err(LineFault::Limit(DeckLimit::Sectors));
    }
    let body = Body::Disc {
        sectors: sectors as u8,
        mirrored,
    };
    Ok(process_with(heading, body))
}

/// One more terminal, on the line of this number.
pub fn terminal_of(
    alloc: Global,
    outline: &Outline,
    line: u32,
    name: &Name,
    target: Name,
) -> Result<TerminalLines, LineFault>
    ensures { result ≡ terminal_of outline.now line name.now target }
{
    if !is_new(outline, name) {
        return Err(LineFault::NameTwice);
    }
    if MOST_TERMINALS <= outline.terminals.len() {
        return Err(LineFault::Limit(DeckLimit::Terminals));
    }
    Ok(TerminalLines {
        line,
        target,
        requests: List::new(alloc),
    })
}

/// The sums with these single events added, or the fault that there are more than a deck may ask for.
fn more_singles(sums: Sums, more: u32) -> Result<Sums, LineFault>
    ensures { result ≡ more_singles sums more }
{
    let Sums { singles, rounds } = sums;
    let all = u64::from(singles) + u64::from(more);
    if MOST_SINGLES < all {
        return Err(LineFault::Limit(DeckLimit::Singles));
    }
    let singles = all as u32;
    Ok(Sums { singles, rounds })
}

/// The sums with these rounds added, or the fault that there are more than a deck may ask for.
fn more_rounds(sums: Sums, more: u32) -> Result<Sums, LineFault>
    ensures { result ≡ more_rounds sums more }
{
    let Sums { singles, rounds } = sums;
    let all = u64::from(rounds) + u64::from(more);
    if MOST_ROUNDS < all {
        return Err(LineFault::Limit(DeckLimit::Rounds));
    }
    let rounds = all as u32;
    Ok(Sums { singles, rounds })
}

/// What event lines ask for together with one more, on a site with so many processors.
pub fn asks(processors: u8, sums: Sums, saying: &EventSaying) -> Result<Sums, LineFault>
    ensures { result ≡ asks processors sums saying.now }
{
    match saying {
        EventSaying::Run(_) => more_singles(sums, 1),
        EventSaying::RunTimes { name: _, times } => times_asks(sums, *times),
        EventSaying::Enter(_) => more_singles(sums, 1),
        EventSaying::Deliver(_) => more_singles(sums, 1),
        EventSaying::Lose(_) => more_singles(sums, 1),
        EventSaying::Repeat(_) => more_singles(sums, 1),
        EventSaying::Tick(node) => tick_asks(processors, sums, *node),
        EventSaying::Fail(processor) => processor_asks(processors, sums, *processor),
        EventSaying::Reload(processor) => processor_asks(processors, sums, *processor),
        EventSaying::Drive { .. } => more_singles(sums, 1),
        EventSaying::CopyTimes { times, .. } => times_asks(sums, *times),
        EventSaying::Drain(rounds) => more_rounds(sums, *rounds),
        EventSaying::Mix { start: _, rounds } => more_rounds(sums, *rounds),
        EventSaying::Mute { processor, rounds } => mute_asks(processors, sums, *processor, *rounds),
        EventSaying::Until {
            writes: _,
            count: _,
            rounds,
        } => more_rounds(sums, *rounds),
    }
}

fn times_asks(sums: Sums, times: u32) -> Result<Sums, LineFault>
    ensures { result ≡ times_asks sums times }
{
    if times < 1 {
        return Err(LineFault::Form);
    }
    more_singles(sums, times)
}

fn tick_asks(processors: u8, sums: Sums, node: u32) -> Result<Sums, LineFault>
    ensures { result ≡ tick_asks processors sums node }
{
    if node < u32::from(processors) || node == TERMINAL_NODE as u32 {
        more_singles(sums, 1)
    } else {
        Err(LineFault::NoProcessor)
    }
}

fn processor_asks(processors: u8, sums: Sums, processor: u32) -> Result<Sums, LineFault>
    ensures { result ≡ processor_asks processors sums processor }
{
    if processor < u32::from(processors) {
        more_singles(sums, 1)
    } else {
        Err(LineFault::NoProcessor)
    }
}

fn mute_asks(processors: u8, sums: Sums, processor: u32, rounds: u32) -> Result<Sums, LineFault>
    ensures { result ≡ mute_asks processors sums processor rounds }
{
    if processor < u32::from(processors) {
        more_rounds(sums, rounds)
    } else {
        Err(LineFault::NoProcessor)
    }
}
