ghost use Rattle.std.specs.Prelude.{◌≡◌, IfOk};
ghost use Rattle.std.specs.Option.{option_map};
ghost use Rattle.process_semantics.specs.SeenEntries.{entry_of};
ghost use Rattle.program_entries.specs.Entries.{entries_of};
ghost use Rattle.tal_tree.specs.declared.statement.What.{out-What};
ghost use Rattle.tal_values.specs.Seen.{memory_now};
ghost use Rattle.program_ends.specs.Ends.{at_end, at_entry, at_return, at_statement, by_count, by_value};
ghost use Rattle.program_ends.specs.Ends.{end_of_program, line_of_entry, line_of_number, met_or_lacking, of_reading};
ghost use Rattle.program_ends.specs.Ends.{of_replying, target_in, target_of, trapping, why};
ghost use Rattle.program_ends.specs.Traps.{trap_in_statement, trap_of_result};

use crate::counts::{trap_of_count, trap_of_counts};
use crate::traps::{trap_in_count, trap_in_statement, trap_in_test, trap_of_call, trap_of_result};
use gd_words::{List, NoMemory};
use image_places::{caller_in, globals_in, locals_in, next_in};
use process_semantics::Entry;
use program_entries::{ProgramEntries, entries_of};
use std::alloc::Global;
use tal_tree::{Expr, Program, Statement, What};
use tal_values::Memory;
use value_traps::ValueTrap;

/// The step with which a program ended.
#[derive(Clone, Copy, PartialEq, Eq)]
pub enum LastStep {
    /// The end of MAIN.
    MainEnded,
    /// STOP, on this line of the program's text.
    Stopped(u32),
    /// RETURN in MAIN, on this line.
    Returned(u32),
    /// A trap of the statement on this line.
    Trapped { line: u32, trap: Trap },
    /// A trap at the end of a procedure: the target of its call is an element that isn't there.
    TrappedAtEnd(WordTarget),
}

/// Where the word of a procedure goes: the line of the call, and why its target isn't there.
#[derive(Clone, Copy, PartialEq, Eq)]
pub struct WordTarget {
    pub line: Option<u32>,
    pub met: ValueTrap,
}

/// Why a statement trapped.
#[derive(Clone, Copy, PartialEq, Eq)]
pub enum Trap {
    /// REPLY, and nothing is in hand.
    NothingInHand,
    /// READUPDATE, and a request is in hand.
    RequestInHand,
    /// A value isn't there, for this reason.
    Value(ValueTrap),
    /// A count is below 0, or above the most that its array lets it be.
    Count { count: i16, most: i16 },
    /// RETURN in a procedure whose call's target is an element that isn't there, for this reason.
    Target(ValueTrap),
}

/// The step with which a program ended that stood so by the words of its image, with a request in hand or none. The
/// other words are those of its image with everything once it had ended.
pub fn end_of_program(
    alloc: Global,
    program: &Program,
    words: &[i16],
    in_hand: bool,
    everything: &[i16],
) -> Result<LastStep, NoMemory>
    ensures { IfOk result (λ step. step ≡ end_of_program program.now words.now in_hand everything.now) }
{
    let entries = entries_of(alloc, program)?;
    let entry = entries.at(next_in(program, words));
    let globals = globals_in(alloc, program, everything)?;
    let memory = Memory {
        items: program.items.as_slice(),
        globals: globals.as_slice(),
        locals: locals_in(program, words),
    };
    let target = target_in(alloc, program, words, &entries, globals.as_slice())?;
    let step = at_entry(alloc, memory, target, in_hand, entry)?;
    Ok(step)
}

/// Where the word of the procedure that runs goes; none where MAIN runs.
fn target_in(
    alloc: Global,
    program: &Program,
    words: &[i16],
    entries: &ProgramEntries<'_>,
    globals: &[List<i16>],
) -> Result<Option<WordTarget>, NoMemory>
    requires { entries.now ≡ entries_of program.now }
    ensures { IfOk result (λ target. target ≡ target_in program.now words.now globals.now) }
{
    let Some((caller, _)) = caller_in(program, words) else {
        return Ok(None);
    };
    let memory = Memory {
        items: program.items.as_slice(),
        globals,
        locals: caller.locals,
    };
    let target = target_of(alloc, memory, entries.at(caller.next))?;
    Ok(Some(target))
}

/// The target of the word of a call, over the memory of the procedure that made it.
fn target_of(
    alloc: Global,
    memory: Memory<'_>,
    call: Option<Entry<'_>>,
) -> Result<WordTarget, NoMemory>
    ensures { IfOk result (λ target. target ≡ target_of (memory_now memory.entry) (option_map entry_of call.entry)) }
{
    let trap = trap_of_call(alloc, memory, call)?;
    Ok(WordTarget {
        line: line_of_next(call),
        met: met_or_lacking(trap),
    })
}

/// The line of a program's text on which what has this number stands; none of 0.
pub fn line_of_number(
    alloc: Global,
    program: &Program,
    number: u16,
) -> Result<Option<u32>, NoMemory>
    ensures { IfOk result (λ line. line ≡ line_of_number program.now number) }
{
    let entries = entries_of(alloc, program)?;
    Ok(line_of_next(entries.at(number)))
}

fn line_of_next(next: Option<Entry<'_>>) -> Option<u32>
    ensures { result ≡ option_map line_of_entry (option_map entry_of next.entry) }
{
    Some(line_of_entry(next?))
}

fn line_of_entry(entry: Entry<'_>) -> u32
    ensures { result ≡ line_of_entry (entry_of entry.entry) }
{
    match entry {
        Entry::Run(statement) => statement.line,
        Entry::Test(statement) => statement.line,
        Entry::Last(statement) => statement.line,
    }
}

/// The step of what comes next in a procedure whose word goes to this target, or in MAIN.
fn at_entry(
    alloc: Global,
    memory: Memory<'_>,
    target: Option<WordTarget>,
    in_hand: bool,
    next: Option<Entry<'_>>,
) -> Result<LastStep, NoMemory>
    ensures { IfOk result (λ step. step
        ≡ at_entry (memory_now memory.entry) target in_hand (option_map entry_of next.entry)) }
{
    match next {
        None => Ok(at_end(target)),
        Some(Entry::Run(statement)) => at_statement(alloc, memory, target, in_hand, statement),
        Some(Entry::Test(statement)) => {
            let trap = trap_in_test(alloc, memory, &statement.what)?;
            Ok(LastStep::Trapped {
                line: statement.line,
                trap: by_value(trap),
            })
        }
        Some(Entry::Last(statement)) => Ok(LastStep::Trapped {
            line: statement.line,
            trap: by_value(trap_in_count(memory, &statement.what)),
        }),
    }
}

fn at_end(target: Option<WordTarget>) -> LastStep
    ensures { result ≡ at_end target }
{
    match target {
        None => LastStep::MainEnded,
        Some(target) => LastStep::TrappedAtEnd(target),
    }
}

fn by_value(trap: Option<ValueTrap>) -> Trap
    ensures { result ≡ by_value trap }
{
    Trap::Value(met_or_lacking(trap))
}

/// A trap of a value. If none is met, what the statement names isn't there.
fn met_or_lacking(trap: Option<ValueTrap>) -> ValueTrap
    ensures { result ≡ met_or_lacking trap }
{
    match trap {
        None => ValueTrap::NotThere,
        Some(trap) => trap,
    }
}

fn by_count(trap: Option<Trap>) -> Trap
    ensures { result ≡ by_count trap }
{
    match trap {
        None => Trap::Value(ValueTrap::NotThere),
        Some(trap) => trap,
    }
}

/// RETURN, whose word meets a trap or none, in a procedure whose word goes to this target, or in MAIN.
fn at_return(target: Option<WordTarget>, line: u32, trap: Option<ValueTrap>) -> LastStep
    ensures { result ≡ at_return target line trap }
{
    match (target, trap) {
        (None, None) => LastStep::Returned(line),
        (Some(target), None) => LastStep::Trapped {
            line,
            trap: Trap::Target(target.met),
        },
        (None, Some(trap)) => LastStep::Trapped {
            line,
            trap: Trap::Value(trap),
        },
        (Some(_), Some(trap)) => LastStep::Trapped {
            line,
            trap: Trap::Value(trap),
        },
    }
}

fn at_statement(
    alloc: Global,
    memory: Memory<'_>,
    target: Option<WordTarget>,
    in_hand: bool,
    statement: &Statement,
) -> Result<LastStep, NoMemory>
    ensures { IfOk result (λ step. step
        ≡ at_statement (memory_now memory.entry) target in_hand statement.now.line (out-What statement.now.what)) }
{
    let line = statement.line;
    match &statement.what {
        What::Stop => Ok(LastStep::Stopped(line)),
        What::Return(value) => returning(alloc, memory, target, line, value),
        What::ReadUpdate { .. }
        | What::Reply { .. }
        | What::WriteRead { .. }
        | What::Assign { .. }
        | What::AssignCall { .. }
        | What::If { .. }
        | What::While { .. }
        | What::For { .. }
        | What::DoUntil { .. }
        | What::Call { .. }
        | What::Checkpoint { .. }
        | What::CheckMonitor
        | What::Open(_) => trapping(alloc, memory, in_hand, line, &statement.what),
    }
}

fn returning(
    alloc: Global,
    memory: Memory<'_>,
    target: Option<WordTarget>,
    line: u32,
    value: &Option<Expr>,
) -> Result<LastStep, NoMemory>
    ensures { IfOk result (λ step. step
        ≡ at_return target line (trap_of_result (memory_now memory.entry) value.now)) }
{
    let trap = trap_of_result(alloc, memory, value)?;
    Ok(at_return(target, line, trap))
}

/// A statement on this line that isn't done.
fn trapping(
    alloc: Global,
    memory: Memory<'_>,
    in_hand: bool,
    line: u32,
    what: &What,
) -> Result<LastStep, NoMemory>
    ensures { IfOk result (λ step. step ≡ trapping (memory_now memory.entry) in_hand line (out-What what.now)) }
{
    let trap = why(alloc, memory, in_hand, what)?;
    Ok(LastStep::Trapped { line, trap })
}

/// Why a statement trapped.
fn why(alloc: Global, memory: Memory<'_>, in_hand: bool, what: &What) -> Result<Trap, NoMemory>
    ensures { IfOk result (λ trap. trap ≡ why (memory_now memory.entry) in_hand (out-What what.now)) }
{
    match what {
        What::ReadUpdate { buffer, most, .. } => {
            let trap = trap_of_count(alloc, memory, *buffer, most)?;
            Ok(of_reading(in_hand, trap))
        }
        What::Reply { buffer, count } => {
            let trap = trap_of_count(alloc, memory, *buffer, count)?;
            Ok(of_replying(in_hand, trap))
        }
        What::WriteRead {
            buffer,
            send,
            room,
            ..
        } => {
            let trap = trap_of_counts(alloc, memory, *buffer, send, room)?;
            Ok(by_count(trap))
        }
        What::Assign { .. }
        | What::AssignCall { .. }
        | What::If { .. }
        | What::While { .. }
        | What::For { .. }
        | What::DoUntil { .. }
        | What::Call { .. }
        | What::Return(_)
        | What::Checkpoint { .. }
        | What::CheckMonitor
        | What::Open(_)
        | What::Stop => of_value(alloc, memory, what),
    }
}

/// A trap of a value that a statement works out.
fn of_value(alloc: Global, memory: Memory<'_>, what: &What) -> Result<Trap, NoMemory>
    ensures { IfOk result (λ trap. trap ≡ by_value (trap_in_statement (memory_now memory.entry) (out-What what.now))) }
{
    let trap = trap_in_statement(alloc, memory, what)?;
    Ok(by_value(trap))
}

/// READUPDATE, whose count meets a trap or none.
fn of_reading(in_hand: bool, trap: Option<Trap>) -> Trap
    ensures { result ≡ of_reading in_hand trap }
{
    if in_hand {
        Trap::RequestInHand
    } else {
        by_count(trap)
    }
}

/// REPLY, whose count meets a trap or none.
fn of_replying(in_hand: bool, trap: Option<Trap>) -> Trap
    ensures { result ≡ of_replying in_hand trap }
{
    if in_hand {
        by_count(trap)
    } else {
        Trap::NothingInHand
    }
}
