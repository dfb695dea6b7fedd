ghost use Rattle.std.specs.Option.{option_or};
ghost use Rattle.std.specs.Prelude.{◌≡◌, IfOk};
ghost use Rattle.process_semantics.specs.State.{words_of};
ghost use Rattle.tal_values.specs.Seen.{memory_now};
ghost use Rattle.program_ends.specs.Traps.{trap_of_count, trap_of_number};

use crate::ending::Trap;
use gd_words::limits::MOST_MESSAGE_WORDS;
use gd_words::{List, NoMemory};
use process_semantics::counts::good_count;
use std::alloc::Global;
use tal_tree::Expr;
use tal_values::Memory;
use value_traps::{ValueTrap, value_or_trap};

/// The trap of the counts of a call that sends words of an array and gets others there: of the first one, if it meets
/// one.
pub(crate) fn trap_of_counts(
    alloc: Global,
    memory: Memory<'_>,
    buffer: u16,
    send: &Expr,
    room: &Expr,
) -> Result<Option<Trap>, NoMemory>
    ensures { IfOk result (λ trap. trap ≡ option_or (trap_of_count (memory_now memory.entry) buffer send.now)
        (trap_of_count (memory_now memory.entry) buffer room.now)) }
{
    let first = trap_of_count(alloc, memory, buffer, send)?;
    let second = trap_of_count(alloc, memory, buffer, room)?;
    Ok(first.or(second))
}

/// The trap of the count of words of an array, if it meets one.
pub(crate) fn trap_of_count(
    alloc: Global,
    memory: Memory<'_>,
    buffer: u16,
    count: &Expr,
) -> Result<Option<Trap>, NoMemory>
    ensures { IfOk result (λ trap. trap ≡ trap_of_count (memory_now memory.entry) buffer count.now) }
{
    let count = value_or_trap(alloc, memory, count)?;
    Ok(trap_of_number(words_of(memory.globals, buffer), count))
}

fn trap_of_number(words: &[i16], count: Result<i16, ValueTrap>) -> Option<Trap>
    ensures { result ≡ trap_of_number words.now count }
{
    match count {
        Err(trap) => Some(Trap::Value(trap)),
        Ok(count) => match good_count(words, count) {
            Some(_) => None,
            None => Some(Trap::Count {
                count,
                most: words.len().min(MOST_MESSAGE_WORDS) as i16,
            }),
        },
    }
}

/// The words of a global; none where there is no such global.
fn words_of(globals: &[List<i16>], item: u16) -> &[i16]
    ensures { result.now ≡ words_of globals.now item }
{
    match globals.get(usize::from(item)) {
        None => &[],
        Some(words) => words.as_slice(),
    }
}
