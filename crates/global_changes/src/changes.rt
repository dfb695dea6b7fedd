ghost use Rattle.std.specs.Prelude.{◌≡◌, ◌++◌, drop, IfOk, OnOk};
ghost use Rattle.global_changes.specs.Changes as spec;
ghost use Rattle.global_changes.specs.Changes.{globals_in, item_set, items_set, later_words, own_words, word_set};
ghost use Rattle.tal_tree.specs.Shapes.{has_words};

use gd_words::{List, NoMemory};
use image_places::running_in;
use process_semantics::globals::width;
use std::alloc::Global;
use tal_tree::{Item, Program, Shape};

/// A word of a global that was set: the number of the global, the place of the word in it from 0, and the word.
#[derive(Clone, Copy, PartialEq, Eq, Drop)]
pub struct WordSet {
    pub item: usize,
    pub place: usize,
    pub value: i16,
}

/// The words of a program's globals that aren't the same in the second image as in the first.
pub fn words_set(
    alloc: Global,
    program: &Program,
    before: &[i16],
    after: &[i16],
) -> Result<List<WordSet>, NoMemory>
    ensures { IfOk result (λ sets. sets ≡ spec.words_set program.now before.now after.now) }
{
    let mut sets = List::new(alloc);
    put_items(
        &mut sets,
        program.items.as_slice(),
        globals_in(program, before),
        globals_in(program, after),
    )?;
    Ok(sets)
}

/// The words of the globals in an image; none where no procedure runs.
fn globals_in<'a>(program: &Program, words: &'a [i16]) -> &'a [i16]
    ensures { result.now ≡ globals_in program.now words.now }
{
    match running_in(program, words) {
        None => &[],
        Some((_, left)) => behind_first(left),
    }
}

fn behind_first(words: &[i16]) -> &[i16]
    ensures { result.now ≡ drop 1 words.now }
{
    match words.split_first() {
        None => &[],
        Some((_, rest)) => rest,
    }
}

fn put_items(
    sets: &mut List<WordSet>,
    items: &[Item],
    before: &[i16],
    after: &[i16],
) -> Result<(), NoMemory>
    ensures { OnOk result (sets.new ≡ sets.old ++ items_set 0 items.now before.now after.now) }
{
    let mut before_left = before;
    let mut after_left = after;
    for (number, item) in items.iter().enumerate() {
        if has_words(item.shape) {
            let width = width(item.shape);
            put_item(
                sets,
                number,
                own_words(width, before_left),
                own_words(width, after_left),
            )?;
            before_left = later_words(width, before_left);
            after_left = later_words(width, after_left);
        }
    }
    Ok(())
}

/// The words of a global behind its number.
fn own_words(width: usize, words: &[i16]) -> &[i16]
    ensures { result.now ≡ own_words width words.now }
{
    let rest = behind_first(words);
    if width <= rest.len() {
        let (own, _) = rest.split_at(width);
        own
    } else {
        rest
    }
}

fn later_words(width: usize, words: &[i16]) -> &[i16]
    ensures { result.now ≡ later_words width words.now }
{
    let rest = behind_first(words);
    if width <= rest.len() {
        let (_, later) = rest.split_at(width);
        later
    } else {
        &[]
    }
}

fn put_item(
    sets: &mut List<WordSet>,
    item: usize,
    before: &[i16],
    after: &[i16],
) -> Result<(), NoMemory>
    ensures { OnOk result (sets.new ≡ sets.old ++ item_set item 0 before.now after.now) }
{
    let mut after_left = after;
    for (place, word) in before.iter().enumerate() {
        let Some((now, rest)) = after_left.split_first() else {
            return Ok(());
        };
        put_word(sets, item, place, *word, *now)?;
        after_left = rest;
    }
    Ok(())
}

fn put_word(
    sets: &mut List<WordSet>,
    item: usize,
    place: usize,
    before: i16,
    after: i16,
) -> Result<(), NoMemory>
    ensures { OnOk result (sets.new ≡ sets.old ++ word_set item place before after) }
{
    if before != after {
        sets.push(WordSet {
            item,
            place,
            value: after,
        })?;
    }
    Ok(())
}

/// Whether a global has words: a file has none.
fn has_words(shape: Shape) -> bool
    ensures { result ≡ has_words shape }
{
    match shape {
        Shape::File(_) => false,
        Shape::Simple | Shape::Array { .. } => true,
    }
}
