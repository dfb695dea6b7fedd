ghost use Rattle.std.specs.Prelude.{◌≡◌, IfOk};
ghost use Rattle.std.specs.Option.{option_map, option_or};
ghost use Rattle.process_semantics.specs.SeenEntries.{entry_of};
ghost use Rattle.tal_tree.specs.declared.statement.What.{out-What};
ghost use Rattle.value_traps.specs.Traps.{trap_of};
ghost use Rattle.tal_values.specs.Seen.{memory_now};
ghost use Rattle.program_ends.specs.Traps.{trap_among, trap_in_count, trap_in_statement, trap_in_test};
ghost use Rattle.program_ends.specs.Traps.{trap_of_call, trap_of_result, trap_of_spot, trap_of_target, trap_of_test};
ghost use Rattle.program_ends.specs.Traps.{trap_of_variable};

use gd_words::NoMemory;
use process_semantics::{Entry, variable_cell};
use std::alloc::Global;
use tal_tree::{Cond, Expr, Spot, Variable, What};
use tal_values::Memory;
use value_traps::operators::word_or_trap;
use value_traps::{ValueTrap, cell_or_trap, truth_or_trap, value_or_trap};

/// The trap of a value that a statement meets first.
pub(crate) fn trap_in_statement(
    alloc: Global,
    memory: Memory<'_>,
    what: &What,
) -> Result<Option<ValueTrap>, NoMemory>
    ensures { IfOk result (λ trap. trap ≡ trap_in_statement (memory_now memory.entry) (out-What what.now)) }
{
    match what {
        What::Assign { to, value } => trap_of_assignment(alloc, memory, to, value),
        What::AssignCall { arguments, .. } => trap_among(alloc, memory, arguments.as_slice()),
        What::Call { arguments, .. } => trap_among(alloc, memory, arguments.as_slice()),
        What::If { test, .. } => trap_of_test(alloc, memory, test),
        What::While { test, .. } => trap_of_test(alloc, memory, test),
        What::DoUntil { test, .. } => trap_of_test(alloc, memory, test),
        What::For { from, .. } => trap_of(alloc, memory, from),
        What::Return(value) => trap_of_result(alloc, memory, value),
        What::ReadUpdate { .. }
        | What::Reply { .. }
        | What::WriteRead { .. }
        | What::Checkpoint { .. }
        | What::CheckMonitor
        | What::Open(_)
        | What::Stop => Ok(None),
    }
}

/// The trap that the test of a FOR meets first.
pub(crate) fn trap_in_test(
    alloc: Global,
    memory: Memory<'_>,
    what: &What,
) -> Result<Option<ValueTrap>, NoMemory>
    ensures { IfOk result (λ trap. trap ≡ trap_in_test (memory_now memory.entry) (out-What what.now)) }
{
    match what {
        What::For { variable, to, .. } => trap_of_limit(alloc, memory, *variable, to),
        What::Assign { .. }
        | What::AssignCall { .. }
        | What::If { .. }
        | What::While { .. }
        | What::DoUntil { .. }
        | What::Call { .. }
        | What::Return(_)
        | What::ReadUpdate { .. }
        | What::Reply { .. }
        | What::WriteRead { .. }
        | What::Checkpoint { .. }
        | What::CheckMonitor
        | What::Open(_)
        | What::Stop => Ok(None),
    }
}

/// The trap that the last assignment of a FOR meets.
pub(crate) fn trap_in_count(memory: Memory<'_>, what: &What) -> Option<ValueTrap>
    ensures { result ≡ trap_in_count (memory_now memory.entry) (out-What what.now) }
{
    match what {
        What::For { variable, .. } => trap_of_variable(memory, *variable),
        What::Assign { .. }
        | What::AssignCall { .. }
        | What::If { .. }
        | What::While { .. }
        | What::DoUntil { .. }
        | What::Call { .. }
        | What::Return(_)
        | What::ReadUpdate { .. }
        | What::Reply { .. }
        | What::WriteRead { .. }
        | What::Checkpoint { .. }
        | What::CheckMonitor
        | What::Open(_)
        | What::Stop => None,
    }
}

/// The trap that the target of a call meets, over the memory of the procedure that made it.
pub(crate) fn trap_of_call(
    alloc: Global,
    memory: Memory<'_>,
    call: Option<Entry<'_>>,
) -> Result<Option<ValueTrap>, NoMemory>
    ensures { IfOk result (λ trap. trap ≡ trap_of_call (memory_now memory.entry) (option_map entry_of call.entry)) }
{
    match call {
        Some(Entry::Run(statement)) => trap_of_target(alloc, memory, &statement.what),
        Some(Entry::Test(_)) => Ok(None),
        Some(Entry::Last(_)) => Ok(None),
        None => Ok(None),
    }
}

fn trap_of_target(
    alloc: Global,
    memory: Memory<'_>,
    what: &What,
) -> Result<Option<ValueTrap>, NoMemory>
    ensures { IfOk result (λ trap. trap ≡ trap_of_target (memory_now memory.entry) (out-What what.now)) }
{
    match what {
        What::AssignCall { to, .. } => trap_of_spot(alloc, memory, to),
        What::Assign { .. }
        | What::If { .. }
        | What::While { .. }
        | What::For { .. }
        | What::DoUntil { .. }
        | What::Call { .. }
        | What::Return(_)
        | What::ReadUpdate { .. }
        | What::Reply { .. }
        | What::WriteRead { .. }
        | What::Checkpoint { .. }
        | What::CheckMonitor
        | What::Open(_)
        | What::Stop => Ok(None),
    }
}

fn trap_of_assignment(
    alloc: Global,
    memory: Memory<'_>,
    to: &Spot,
    value: &Expr,
) -> Result<Option<ValueTrap>, NoMemory>
    ensures { IfOk result (λ trap. trap
        ≡ option_or (trap_of (memory_now memory.entry) value.now) (trap_of_spot (memory_now memory.entry) to.now)) }
{
    let first = trap_of(alloc, memory, value)?;
    let second = trap_of_spot(alloc, memory, to)?;
    Ok(first.or(second))
}

fn trap_of_limit(
    alloc: Global,
    memory: Memory<'_>,
    variable: Variable,
    to: &Expr,
) -> Result<Option<ValueTrap>, NoMemory>
    ensures { IfOk result (λ trap. trap
        ≡ option_or (trap_of_variable (memory_now memory.entry) variable) (trap_of (memory_now memory.entry) to.now)) }
{
    let limit = trap_of(alloc, memory, to)?;
    Ok(trap_of_variable(memory, variable).or(limit))
}

/// The trap that the arguments of a call meet first.
fn trap_among(
    alloc: Global,
    memory: Memory<'_>,
    arguments: &[Expr],
) -> Result<Option<ValueTrap>, NoMemory>
    ensures { IfOk result (λ trap. trap ≡ trap_among (memory_now memory.entry) arguments.now) }
{
    let mut left = arguments;
    while let Some((argument, rest)) = left.split_first() {
        let trap = trap_of(alloc, memory, argument)?;
        if trap.is_some() {
            return Ok(trap);
        }
        left = rest;
    }
    Ok(None)
}

/// The trap of the word that RETURN gives, if it names one.
pub(crate) fn trap_of_result(
    alloc: Global,
    memory: Memory<'_>,
    value: &Option<Expr>,
) -> Result<Option<ValueTrap>, NoMemory>
    ensures { IfOk result (λ trap. trap ≡ trap_of_result (memory_now memory.entry) value.now) }
{
    match value {
        None => Ok(None),
        Some(value) => trap_of(alloc, memory, value),
    }
}

fn trap_of(alloc: Global, memory: Memory<'_>, expr: &Expr) -> Result<Option<ValueTrap>, NoMemory>
    ensures { IfOk result (λ trap. trap ≡ trap_of (memory_now memory.entry) expr.now) }
{
    let value = value_or_trap(alloc, memory, expr)?;
    Ok(value.err())
}

fn trap_of_spot(
    alloc: Global,
    memory: Memory<'_>,
    spot: &Spot,
) -> Result<Option<ValueTrap>, NoMemory>
    ensures { IfOk result (λ trap. trap ≡ trap_of_spot (memory_now memory.entry) spot.now) }
{
    let cell = cell_or_trap(alloc, memory, spot)?;
    Ok(cell.err())
}

fn trap_of_test(
    alloc: Global,
    memory: Memory<'_>,
    test: &Cond,
) -> Result<Option<ValueTrap>, NoMemory>
    ensures { IfOk result (λ trap. trap ≡ trap_of_test (memory_now memory.entry) test.now) }
{
    let truth = truth_or_trap(alloc, memory, test)?;
    Ok(truth.err())
}

fn trap_of_variable(memory: Memory<'_>, variable: Variable) -> Option<ValueTrap>
    ensures { result ≡ trap_of_variable (memory_now memory.entry) variable }
{
    word_or_trap(memory, variable_cell(variable)).err()
}
