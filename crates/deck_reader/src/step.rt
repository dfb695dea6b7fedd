ghost use Rattle.std.specs.Prelude.{◌≡◌, false, [], Some, IfOk};
ghost use Rattle.name_table.specs.Entries.{has_name};
ghost use Rattle.deck_reader.specs.declared.step.Stage.TheVariants as at;
ghost use Rattle.deck_reader.specs.declared.step.LineOutcome.TheVariants as step;
ghost use Rattle.deck_reader.specs.LineFaults.{processors_of, disc_of, heading_of, terminal_of};
ghost use Rattle.deck_reader.specs.Few.{AreFew, HasFew};
ghost use Rattle.deck_reader.specs.Fresh.{HasNew, IsNewHeading};
ghost use Rattle.deck_reader.specs.Outlined.{breach_at, broken_at_start, opening, with_process, with_terminal};
ghost use Rattle.deck_reader.specs.Outlined.{disc_told};
ghost use Rattle.deck_reader.specs.Outlined.{terminal_told, program_ended, in_program, in_blocks, in_requests};
ghost use Rattle.deck_reader.specs.Outlined.{first_noted, with_event, request_told, long_request_told, in_schedule};
ghost use Rattle.deck_reader.specs.Outlined.{ended, next_stage};

use crate::event_line::event_line;
use crate::line_fault::{LineFault, asks, disc_of, heading_of, terminal_of};
use crate::outline::{
    Body, EventLines, Heading, Outline, ProcessLines, ProgramLines, Sums, TerminalLines,
    process_with,
};
use deck_lines::{Placing, Saying, saying_of};
use gd_words::limits::{MOST_PROCESSORS, MOST_REQUESTS};
use gd_words::{List, Name, NoMemory, Words};
use name_table::NameTable;
use schedule::Line;
use std::alloc::Global;
use tal_tree::DeckLimit;

/// Where in the deck the next line stands, and what was said before.
#[derive(Drop)]
pub enum Stage {
    /// Before the line of the processors.
    Opening,
    /// Where a process, a terminal or the schedule may begin.
    Blocks(Outline),
    /// In the program of a pair, after its heading, or the fault of its line.
    Program(Outline, Result<Heading, LineFault>, ProgramLines),
    /// After a terminal or one of its requests.
    Requests(Outline, Name, TerminalLines),
    Schedule(Outline),
    /// After END.
    Ended(Outline),
}

/// The first line that can't stand where it does, or the last one where END is missing.
#[derive(Drop)]
pub struct Breach {
    /// The processes of the lines before it.
    pub processes: NameTable<ProcessLines>,
    /// The program that follows it, where it is a pair's line and that program has an end.
    pub own: Option<ProgramLines>,
    /// Its number, counted from 1.
    pub line: u32,
    pub why: LineFault,
}

/// What comes of one more line.
#[derive(Drop)]
pub enum LineOutcome {
    Next(Stage),
    Broken(Breach),
}

/// A line of this number can't stand here.
pub fn broken(outline: Outline, line: u32, why: LineFault) -> Breach
    ensures { result ≡ breach_at outline line why }
{
    let Outline {
        processors: _,
        processes,
        terminals: _,
        events: _,
    } = outline;
    Breach {
        processes,
        own: None,
        line,
        why,
    }
}

/// A line of this number can't stand before that of the processors.
pub fn broken_at_start(alloc: Global, line: u32, why: LineFault) -> Breach
    ensures { result ≡ broken_at_start line why }
{
    Breach {
        processes: NameTable::new(alloc),
        own: None,
        line,
        why,
    }
}

/// What comes of one more line, which has this number.
pub fn next_stage(
    alloc: Global,
    stage: Stage,
    number: u32,
    line: &[u8],
) -> Result<LineOutcome, NoMemory>
    requires few { HasFew stage }
    requires new { HasNew stage }
    ensures { IfOk result (λ next. next ≡ next_stage stage number line.now) }
{
    match stage {
        Stage::Opening => Ok(opening(alloc, number, saying_of(line))),
        Stage::Blocks(outline) => in_blocks(alloc, outline, number, saying_of(line)),
        Stage::Program(outline, heading, program) => in_program(outline, heading, program, line),
        Stage::Requests(outline, name, terminal) => {
            in_requests(alloc, outline, name, terminal, number, saying_of(line))
        }
        Stage::Schedule(outline) => in_schedule(outline, number, saying_of(line)),
        Stage::Ended(outline) => Ok(ended(outline, number, saying_of(line))),
    }
}

fn opening(alloc: Global, number: u32, saying: Saying) -> LineOutcome
    ensures { result ≡ opening number saying }
{
    match saying {
        Saying::Nothing => LineOutcome::Next(Stage::Opening),
        Saying::Processors(count) => match processors_of(alloc, count) {
            Err(why) => LineOutcome::Broken(broken_at_start(alloc, number, why)),
            Ok(outline) => LineOutcome::Next(Stage::Blocks(outline)),
        },
        _ => LineOutcome::Broken(broken_at_start(alloc, number, LineFault::Form)),
    }
}

fn processors_of(alloc: Global, count: u32) -> Result<Outline, LineFault>
    ensures { result ≡ processors_of count }
{
    if count < 2 {
        return Err(LineFault::Limit(DeckLimit::Processors));
    }
    if (MOST_PROCESSORS as u32) < count {
        return Err(LineFault::Limit(DeckLimit::Processors));
    }
    Ok(Outline::new(alloc, count as u8))
}

fn in_blocks(
    alloc: Global,
    outline: Outline,
    number: u32,
    saying: Saying,
) -> Result<LineOutcome, NoMemory>
    ensures { IfOk result (λ next. next ≡ in_blocks outline number saying) }
{
    match saying {
        Saying::Nothing => Ok(LineOutcome::Next(Stage::Blocks(outline))),
        Saying::Disc {
            placing,
            sectors,
            mirrored,
        } => disc_told(outline, number, placing, sectors, mirrored),
        Saying::Pair(placing) => Ok(pair_told(alloc, outline, number, placing)),
        Saying::Terminal { name, target } => {
            Ok(terminal_told(alloc, outline, number, name, target))
        }
        Saying::Schedule => Ok(LineOutcome::Next(Stage::Schedule(outline))),
        _ => Ok(LineOutcome::Broken(broken(outline, number, LineFault::Form))),
    }
}

fn disc_told(
    outline: Outline,
    number: u32,
    placing: Placing,
    sectors: u32,
    mirrored: bool,
) -> Result<LineOutcome, NoMemory>
    ensures { IfOk result (λ next. next ≡ disc_told outline number (disc_of outline placing sectors mirrored)) }
{
    match disc_of(&outline, placing, sectors, mirrored) {
        Err(why) => Ok(LineOutcome::Broken(broken(outline, number, why))),
        Ok(process) => {
            let outline = with_process(outline, process)?;
            Ok(LineOutcome::Next(Stage::Blocks(outline)))
        }
    }
}

/// The outline with one more process, whose name is new.
fn with_process(outline: Outline, process: (Name, ProcessLines)) -> Result<Outline, NoMemory>
    requires new { has_name outline.processes process.0 ≡ false }
    ensures { IfOk result (λ next. next ≡ with_process outline process) }
{
    let (name, lines) = process;
    let mut outline = outline;
    outline.processes.push(name, lines)?;
    Ok(outline)
}

fn pair_told(alloc: Global, outline: Outline, number: u32, placing: Placing) -> LineOutcome
    ensures { result ≡ step.Next (at.Program outline (heading_of outline placing)
        (record { line = number; text = [] })) }
{
    let heading = heading_of(&outline, placing);
    let program = ProgramLines {
        line: number,
        text: List::new(alloc),
    };
    LineOutcome::Next(Stage::Program(outline, heading, program))
}

fn terminal_told(
    alloc: Global,
    outline: Outline,
    number: u32,
    name: Name,
    target: Name,
) -> LineOutcome
    ensures { result ≡ terminal_told outline number name (terminal_of outline number name target) }
{
    match terminal_of(alloc, &outline, number, &name, target) {
        Err(why) => LineOutcome::Broken(broken(outline, number, why)),
        Ok(terminal) => LineOutcome::Next(Stage::Requests(outline, name, terminal)),
    }
}

fn in_program(
    outline: Outline,
    heading: Result<Heading, LineFault>,
    program: ProgramLines,
    line: &[u8],
) -> Result<LineOutcome, NoMemory>
    requires new { IsNewHeading outline heading }
    ensures { IfOk result (λ next. next ≡ in_program outline heading program line.now) }
{
    if line == b".".as_slice() {
        program_ended(outline, heading, program)
    } else {
        let mut program = program;
        program.text.extend_from_slice(line)?;
        program.text.push(b'\n')?;
        Ok(LineOutcome::Next(Stage::Program(outline, heading, program)))
    }
}

/// The end of a program: now the fault of its pair's line is told, where there is one.
fn program_ended(
    outline: Outline,
    heading: Result<Heading, LineFault>,
    program: ProgramLines,
) -> Result<LineOutcome, NoMemory>
    requires new { IsNewHeading outline heading }
    ensures { IfOk result (λ next. next ≡ program_ended outline heading program) }
{
    match heading {
        Err(why) => Ok(LineOutcome::Broken(broken_pair(outline, program, why))),
        Ok(heading) => {
            let process = process_with(heading, Body::Pair(program));
            let outline = with_process(outline, process)?;
            Ok(LineOutcome::Next(Stage::Blocks(outline)))
        }
    }
}

/// The line of a pair, whose program has an end, can't stand here.
fn broken_pair(outline: Outline, program: ProgramLines, why: LineFault) -> Breach
    ensures { result ≡ record { processes = outline.processes; own = Some program; line = program.line; why = why } }
{
    let Outline {
        processors: _,
        processes,
        terminals: _,
        events: _,
    } = outline;
    let line = program.line;
    Breach {
        processes,
        own: Some(program),
        line,
        why,
    }
}

fn in_requests(
    alloc: Global,
    outline: Outline,
    name: Name,
    terminal: TerminalLines,
    number: u32,
    saying: Saying,
) -> Result<LineOutcome, NoMemory>
    requires new { has_name outline.terminals name ≡ false }
    ensures { IfOk result (λ next. next ≡ in_requests outline name terminal number saying) }
{
    match saying {
        Saying::Nothing => Ok(LineOutcome::Next(Stage::Requests(outline, name, terminal))),
        Saying::Send(words) => request_told(outline, name, terminal, number, words),
        Saying::LongSend => Ok(long_request_told(outline, &terminal, number)),
        saying => {
            let outline = with_terminal(outline, name, terminal)?;
            in_blocks(alloc, outline, number, saying)
        }
    }
}

/// The outline with one more terminal, whose name is new.
fn with_terminal(outline: Outline, name: Name, terminal: TerminalLines) -> Result<Outline, NoMemory>
    requires new { has_name outline.terminals name ≡ false }
    ensures { IfOk result (λ next. next ≡ with_terminal outline name terminal) }
{
    let mut outline = outline;
    outline.terminals.push(name, terminal)?;
    Ok(outline)
}

/// One more request, of which a terminal has at most 1,000.
fn request_told(
    outline: Outline,
    name: Name,
    terminal: TerminalLines,
    number: u32,
    words: Words,
) -> Result<LineOutcome, NoMemory>
    ensures { IfOk result (λ next. next ≡ request_told outline name terminal number words) }
{
    if MOST_REQUESTS <= terminal.requests.len() {
        return Ok(LineOutcome::Broken(broken(
            outline,
            number,
            LineFault::Limit(DeckLimit::Requests),
        )));
    }
    let mut terminal = terminal;
    terminal.requests.push(words)?;
    Ok(LineOutcome::Next(Stage::Requests(outline, name, terminal)))
}

/// A request of more than 16 words.
fn long_request_told(outline: Outline, terminal: &TerminalLines, number: u32) -> LineOutcome
    ensures { result ≡ long_request_told outline terminal.now number }
{
    if MOST_REQUESTS <= terminal.requests.len() {
        LineOutcome::Broken(broken(outline, number, LineFault::Limit(DeckLimit::Requests)))
    } else {
        LineOutcome::Broken(broken(outline, number, LineFault::Limit(DeckLimit::RequestWords)))
    }
}

/// What comes of a line inside the schedule: the next stage, or where the deck breaks off.
fn in_schedule(outline: Outline, number: u32, saying: Saying) -> Result<LineOutcome, NoMemory>
    requires few { AreFew outline }
    ensures { IfOk result (λ next. next ≡ in_schedule outline number saying) }
{
    match saying {
        Saying::Nothing => Ok(LineOutcome::Next(Stage::Schedule(outline))),
        Saying::End => Ok(LineOutcome::Next(Stage::Ended(outline))),
        Saying::Event(saying) => match asks(outline.processors, outline.events.sums, &saying) {
            Err(why) => Ok(LineOutcome::Broken(broken(outline, number, why))),
            Ok(sums) => {
                let line = event_line(&outline, saying);
                asked(outline, number, sums, line)
            }
        },
        _ => Ok(LineOutcome::Broken(broken(outline, number, LineFault::Form))),
    }
}

/// The next stage after an event line, with what all lines ask for together.
fn asked(
    outline: Outline,
    number: u32,
    sums: Sums,
    line: Option<Line>,
) -> Result<LineOutcome, NoMemory>
    ensures { IfOk result (λ next. next ≡ step.Next
        (at.Schedule (record outline { events = with_event outline.events number sums line }))) }
{
    let Outline {
        processors,
        processes,
        terminals,
        events,
    } = outline;
    let events = with_event(events, number, sums, line)?;
    Ok(LineOutcome::Next(Stage::Schedule(Outline {
        processors,
        processes,
        terminals,
        events,
    })))
}

fn with_event(
    events: EventLines,
    number: u32,
    sums: Sums,
    line: Option<Line>,
) -> Result<EventLines, NoMemory>
    ensures { IfOk result (λ next. next ≡ with_event events number sums line) }
{
    let EventLines {
        mut lines,
        sums: _,
        unknown,
    } = events;
    match line {
        Some(line) => {
            lines.push(line)?;
            Ok(EventLines {
                lines,
                sums,
                unknown,
            })
        }
        None => {
            let unknown = Some(first_noted(unknown, number));
            Ok(EventLines {
                lines,
                sums,
                unknown,
            })
        }
    }
}

fn first_noted(noted: Option<u32>, number: u32) -> u32
    ensures { result ≡ first_noted noted number }
{
    match noted {
        None => number,
        Some(first) => first,
    }
}

/// After END only empty lines and remarks.
fn ended(outline: Outline, number: u32, saying: Saying) -> LineOutcome
    ensures { result ≡ ended outline number saying }
{
    match saying {
        Saying::Nothing => LineOutcome::Next(Stage::Ended(outline)),
        _ => LineOutcome::Broken(broken(outline, number, LineFault::Form)),
    }
}
