ghost use Rattle.std.specs.Option.{option_and_then};
ghost use Rattle.std.specs.Prelude.{◌≡◌, ◌++◌, ◌∷◌, [], drop, IfOk, OnOk};
ghost use Rattle.image_places.specs.Memories.{global_in, globals_from, globals_in, locals_in};
ghost use Rattle.image_places.specs.Running.{Gives};
ghost use Rattle.process_semantics.specs.Words.{count_in, words_in};

use crate::running::{number_in, running_in, words_in};
use process_semantics::globals::width;
use process_semantics::{List, NoMemory};
use std::alloc::Global;
use tal_tree::{Item, Program, Shape};

/// The locals of the procedure that runs in a program, by the words of its image; none where no procedure runs.
pub fn locals_in<'a>(program: &Program, words: &'a [i16]) -> &'a [i16]
    ensures { result.now ≡ locals_in program.now words.now }
{
    match running_in(program, words) {
        None => &[],
        Some((frame, _)) => frame.locals,
    }
}

/// The words of all items of a program that has ended, by the words of its image with everything.
pub fn globals_in(
    alloc: Global,
    program: &Program,
    words: &[i16],
) -> Result<List<List<i16>>, NoMemory>
    ensures { IfOk result (λ globals. globals ≡ globals_in program.now words.now) }
{
    let globals = globals_from(alloc, program.items.as_slice(), behind_counts(words))?;
    match globals {
        None => Ok(List::new(alloc)),
        Some(globals) => Ok(globals),
    }
}

/// The words behind how many procedures run and how many items there are.
fn behind_counts(words: &[i16]) -> &[i16]
    ensures { result.now ≡ drop 2 words.now }
{
    match words {
        [_, _, rest @ ..] => rest,
        [_] => &[],
        [] => &[],
    }
}

/// The words of these items. None where the words are no such image.
fn globals_from(
    alloc: Global,
    items: &[Item],
    words: &[i16],
) -> Result<Option<List<List<i16>>>, NoMemory>
    ensures { IfOk result (λ globals. globals ≡ globals_from items.now words.now []) }
{
    let mut globals = List::new(alloc);
    let mut items_left = items;
    let mut left = words;
    while let Some((item, later)) = items_left.split_first() {
        let Some((own, rest)) = global_in(item.shape, left) else {
            return Ok(None);
        };
        put_global(alloc, &mut globals, own)?;
        items_left = later;
        left = rest;
    }
    Ok(Some(globals))
}

/// Puts the words of an item behind those of others.
fn put_global(alloc: Global, globals: &mut List<List<i16>>, own: &[i16]) -> Result<(), NoMemory>
    ensures { OnOk result (globals.new ≡ globals.old ++ own.now ∷ []) }
{
    let mut words = List::new(alloc);
    words.extend_from_slice(own)?;
    globals.push(words)?;
    Ok(())
}

/// The words of an item that words begin with, and those behind them.
fn global_in(shape: Shape, words: &[i16]) -> Option<(&[i16], &[i16])>
    ensures { Gives (λ r. (r.0.now, r.1.now)) result (global_in shape words.now) }
{
    match shape {
        Shape::File(_) => Some((&[], words)),
        Shape::Simple | Shape::Array { .. } => numbered(width(shape), words),
    }
}

/// So many words behind a number, and those behind them.
fn numbered(count: usize, words: &[i16]) -> Option<(&[i16], &[i16])>
    ensures { Gives (λ r. (r.0.now, r.1.now)) result
        (option_and_then (λ (number, left). words_in count left) (count_in words.now)) }
{
    let (_, left) = number_in(words)?;
    words_in(count, left)
}
