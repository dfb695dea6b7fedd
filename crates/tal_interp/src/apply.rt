ghost use Rattle.std.specs.Bool.{OnTrue, OnFalse};
ghost use Rattle.std.specs.Prelude.{◌≡◌, ◌≤◌, ◌<◌, ℤ, List as Items, [], length, map, is_some, IfSome, Some, None};
ghost use Rattle.std.specs.Prelude.{vec_capacity};
ghost use Rattle.process_semantics.specs.Image.{frame_in, items_in, restored_program};
ghost use Rattle.process_semantics.specs.State.{called_by};
ghost use Rattle.process_semantics.specs.Words.{count_in, words_in, whole};
ghost use Rattle.tal_table.specs.whole_states.specs.Whole.{sizes_of, widths_of};
ghost use Rattle.tal_table.specs.checkpoint_image.specs.Reading.{Gives};
ghost use Rattle.tal_table.specs.Places.{places, rest_at};
ghost use Rattle.tal_interp.specs.Images.{Overwrites, called_frame, called_frames, frames_of, listed_item};
ghost use Rattle.tal_interp.specs.SeenFrames.{frame_seen};
ghost use Rattle.tal_interp.specs.Sound.{IsLoadable, IsSound};
ghost use Rattle.gd_words.specs.declared.limits.TheConstants.{MOST_GLOBALS, MOST_LOCALS};

use crate::frame::Frame;
use crate::interpreter::Interpreter;
use crate::locals::Locals;
use gd_words::List;
use gd_words::limits::MOST_GLOBALS;
use process_semantics::globals::{overwrite, width};
use std::mem;
use tal_table::{Table, Work};
use tal_tree::{Item, Shape};

impl Interpreter {
    /// Puts an image into it, with a request in hand or none; false where the words are no image of it, and then
    /// nothing changes.
    pub(crate) fn apply(&mut self, words: &[i16], in_hand: bool) -> bool
        requires { IsSound self.old }
        ensures applied { OnTrue result (restored_program self.old.program self.old.state in_hand words.now
            ≡ Some self.new.state) }
        ensures program { self.new.program ≡ self.old.program }
        ensures refused { OnFalse result (restored_program self.old.program self.old.state in_hand words.now ≡ None) }
        ensures unchanged { OnFalse result (self.new ≡ self.old) }
    {
        let Some(left) = frames_of(&self.table, words, &mut self.restored) else {
            return false;
        };
        let Some((count, left)) = number_in(left) else {
            return false;
        };
        if !are_items(&self.table, count, left) {
            return false;
        }
        overwrite_items(&self.table, left, &mut self.globals);
        self.running = self.restored.pop();
        mem::swap(&mut self.callers, &mut self.restored);
        self.in_hand = in_hand;
        self.awaits = false;
        true
    }
}

/// A number that isn't below 0.
fn number_in(words: &[i16]) -> Option<(u16, &[i16])>
    ensures { Gives (λ r. (r.0, r.1.now)) result (count_in words.now) }
{
    match words {
        [word, rest @ ..] if 0 <= *word => Some((word.cast_unsigned(), rest)),
        _ => None,
    }
}

/// The first `count` words, and those after them. `None` if there are fewer.
fn words_in(count: usize, words: &[i16]) -> Option<(&[i16], &[i16])>
    ensures { Gives (λ r. (r.0.now, r.1.now)) result (words_in count words.now) }
{
    if count <= words.len() {
        Some(words.split_at(count))
    } else {
        None
    }
}

/// Words as those of locals.
fn locals_of(words: &[i16]) -> Locals
    requires { length words.now ≤ MOST_LOCALS }
    ensures { result ≡ words.now }
{
    let mut locals = Locals::new();
    for word in words {
        locals.push(*word);
    }
    locals
}

/// A frame: its number is one of its procedure's.
fn frame_in<'a>(table: &Table, words: &'a [i16]) -> Option<(Frame, &'a [i16])>
    ensures { Gives (λ r. (frame_seen (places table.now) r.0, r.1.now)) result (frame_in table.now words.now) }
{
    let (procedure, left) = number_in(words)?;
    let (at, left) = number_in(left)?;
    let heading = table.heading(procedure)?;
    if !table.is_in(procedure, at) {
        return None;
    }
    let (words, rest) = words_in(usize::from(heading.locals), left)?;
    let locals = locals_of(words);
    Some((
        Frame {
            procedure,
            at,
            locals,
        },
        rest,
    ))
}

/// A frame of the procedure that was called.
fn called_frame<'a>(
    table: &Table,
    called: Option<u16>,
    words: &'a [i16],
) -> Option<(Frame, &'a [i16])>
    ensures { Gives (λ r. (frame_seen (places table.now) r.0, r.1.now)) result
        (called_frame table.now called words.now) }
{
    let (frame, left) = frame_in(table, words)?;
    if called == Some(frame.procedure) {
        Some((frame, left))
    } else {
        None
    }
}

/// The procedure that is called at a number, if one is.
fn called_at(table: &Table, at: u16) -> Option<u16>
    ensures { result ≡ called_by (rest_at (places table.now) at) }
{
    match &table.node(at)?.work {
        Work::Call { procedure, .. } => Some(*procedure),
        _ => None,
    }
}

/// Puts so many frames, from MAIN up, into an empty list that has room for one of each procedure.
fn called_frames<'a>(
    table: &Table,
    count: u16,
    words: &'a [i16],
    frames: &mut Vec<Frame>,
) -> Option<&'a [i16]>
    requires loadable { IsLoadable table.now }
    requires empty { frames.old.items ≡ [] }
    requires room { length table.now.procedures ≤ vec_capacity frames.old }
    ensures read { Gives (λ left. (map (frame_seen (places table.now)) frames.new.items, left.now)) result
        (called_frames table.now (Some table.now.main) count words.now) }
    ensures room { vec_capacity frames.new ≡ vec_capacity frames.old }
{
    let mut called = Some(table.main());
    let mut left = words;
    for _turn in 0..count {
        let (frame, rest) = called_frame(table, called, left)?;
        called = called_at(table, frame.at);
        frames.push_reserved(frame);
        left = rest;
    }
    Some(left)
}

/// Puts the frames of an image, from MAIN up, in the place of others.
fn frames_of<'a>(table: &Table, words: &'a [i16], frames: &mut Vec<Frame>) -> Option<&'a [i16]>
    requires loadable { IsLoadable table.now }
    requires room { length table.now.procedures ≤ vec_capacity frames.old }
    ensures read { Gives (λ left. (map (frame_seen (places table.now)) frames.new.items, left.now)) result
        (frames_of table.now words.now) }
    ensures room { vec_capacity frames.new ≡ vec_capacity frames.old }
{
    frames.clear();
    let (count, left) = number_in(words)?;
    called_frames(table, count, left, frames)
}

/// An item that may be listed: its number and its words.
fn listed_item<'a>(items: &[Item], words: &'a [i16]) -> Option<(u16, &'a [i16], &'a [i16])>
    ensures read { Gives (λ r. ((r.0, r.1.now), r.2.now)) result (listed_item items.now words.now) }
    ensures there { IfSome result (λ r. r.0 < length items.now) }
{
    let (number, left) = number_in(words)?;
    let item = items.get(usize::from(number))?;
    let shape = item.shape;
    if let Shape::File(_) = shape {
        return None;
    }
    let (found, rest) = words_in(width(shape), left)?;
    Some((number, found, rest))
}

/// Whether words are so many items to their end, each named once.
fn are_items(table: &Table, count: u16, words: &[i16]) -> bool
    requires { length table.now.items ≤ MOST_GLOBALS }
    ensures { result ≡ is_some (whole (items_in table.now count [] [] words.now)) }
{
    let mut named = [false; MOST_GLOBALS];
    let mut left = words;
    for _turn in 0..count {
        let Some((number, _found, rest)) = listed_item(table.items(), left) else {
            return false;
        };
        let number = usize::from(number);
        if named[number] {
            return false;
        }
        named[number] = true;
        left = rest;
    }
    left.is_empty()
}

/// Puts the words of items over those of globals.
fn overwrite_items(table: &Table, words: &[i16], globals: &mut [List<i16>])
    requires { sizes_of globals.old ≡ widths_of table.now }
    ensures { (others : Items (Items ℤ)) → Overwrites table.now globals.old words.now others → globals.new ≡ others }
{
    let mut left = words;
    while let Some((number, found, rest)) = listed_item(table.items(), left) {
        overwrite(&mut globals[usize::from(number)], found);
        left = rest;
    }
}
