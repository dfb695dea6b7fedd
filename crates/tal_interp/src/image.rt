ghost use Rattle.std.specs.List.{All, flat_map};
ghost use Rattle.std.specs.Prelude.{◌≡◌, ◌≤◌, ◌<◌, ℕ, List as Items, ◌∷◌, ◌++◌, length, map, pos, reverse, IfOk, OnOk};
ghost use Rattle.tal_tree.specs.Regular.{AreListed};
ghost use Rattle.process_semantics.specs.Image.{frame_words, image_of, item_words};
ghost use Rattle.process_semantics.specs.Process.{Runs};
ghost use Rattle.process_semantics.specs.Rests.{next_number};
ghost use Rattle.tal_table.specs.program_deeds.specs.Deed.{deed_of};
ghost use Rattle.tal_table.specs.Places.{places, rest_at};
ghost use Rattle.tal_interp.specs.Images.{imaged_frames, imaged_rest};
ghost use Rattle.tal_interp.specs.SeenFrames.{frame_seen};
ghost use Rattle.tal_interp.specs.Sound.{IsSound};
ghost use Rattle.gd_words.specs.declared.limits.TheConstants.{MOST_GLOBALS, MOST_PROCEDURES, MOST_STATEMENTS};

use crate::frame::Frame;
use crate::interpreter::Interpreter;
use gd_words::{List, NoMemory};
use std::alloc::Global;
use tal_table::{Table, Work};

impl Interpreter {
    /// The words of its image with these items: at a checkpoint that of the state after it.
    pub(crate) fn image(&self, alloc: Global, items: &[u16]) -> Result<List<i16>, NoMemory>
        requires sound { IsSound self.now }
        requires listed { (files : Items ℕ) × AreListed self.now.program items.now files }
        ensures { IfOk result (λ words. words ≡ image_of items.now (Runs self.now.program self.now.state)) }
    {
        // all memory at once: two counts, two words and the locals of each frame, and each item with its number
        let mut room = 2_usize;
        for caller in &self.callers {
            room = room
                .saturating_add(2)
                .saturating_add(caller.locals.as_slice().len());
        }
        if let Some(running) = &self.running {
            room = room
                .saturating_add(2)
                .saturating_add(running.locals.as_slice().len());
        }
        for item in items {
            room = room
                .saturating_add(1)
                .saturating_add(self.words(*item).len());
        }
        let mut all = List::from_vec(Vec::with_capacity(alloc, room)?);
        self.put_frames(&mut all)?;
        self.put_items(items, &mut all)?;
        Ok(all)
    }

    /// Puts the frames from MAIN up behind words.
    fn put_frames(&self, out: &mut List<i16>) -> Result<(), NoMemory>
        requires few { length self.now.state.frames ≤ MOST_PROCEDURES }
        requires procedures { All (λ frame. frame.procedure < MOST_PROCEDURES) self.now.state.frames }
        ensures { OnOk result (out.new ≡ out.old ++ pos (length self.now.state.frames)
            ∷ flat_map frame_words (reverse (imaged_frames self.now.state.frames))) }
    {
        match &self.running {
            None => out.push(0)?,
            Some(running) => {
                out.push((self.callers.len() + 1) as i16)?;
                put_callers(&self.table, self.callers.as_slice(), out)?;
                put_frame(running, imaged_next(&self.table, running.at), out)?;
            }
        }
        Ok(())
    }

    /// Puts items with their words behind words.
    fn put_items(&self, items: &[u16], out: &mut List<i16>) -> Result<(), NoMemory>
        requires few { length items.now ≤ MOST_GLOBALS }
        requires numbers { All (λ item. item < MOST_GLOBALS) items.now }
        ensures { OnOk result (out.new ≡ out.old
            ++ pos (length items.now) ∷ flat_map (item_words self.now.state) items.now) }
    {
        out.push(items.len() as i16)?;
        for item in items {
            out.push(*item as i16)?;
            out.extend_from_slice(self.words(*item))?;
        }
        Ok(())
    }
}

/// The number that comes next in an image, for the procedure that runs: at a checkpoint the one after it.
fn imaged_next(table: &Table, at: u16) -> u16
    ensures next { result ≡ next_number (imaged_rest (deed_of (rest_at (places table.now) at))
        (rest_at (places table.now) at)) }
    ensures few { result ≤ MOST_STATEMENTS }
{
    match table.node(at) {
        None => table.next_number(at),
        Some(node) => match &node.work {
            Work::Checkpoint(_) => table.next_number(node.after),
            _ => table.next_number(at),
        },
    }
}

fn put_frame(frame: &Frame, next: u16, out: &mut List<i16>) -> Result<(), NoMemory>
    requires procedure { frame.now.procedure < MOST_PROCEDURES }
    requires next { next ≤ MOST_STATEMENTS }
    ensures { OnOk result (out.new ≡ out.old ++ pos frame.now.procedure ∷ pos next ∷ frame.now.locals) }
{
    out.push(frame.procedure as i16)?;
    out.push(next as i16)?;
    out.extend_from_slice(frame.locals.as_slice())?;
    Ok(())
}

fn put_callers(table: &Table, callers: &[Frame], out: &mut List<i16>) -> Result<(), NoMemory>
    requires { All (λ caller. caller.procedure < MOST_PROCEDURES) callers.now }
    ensures { OnOk result (out.new ≡ out.old
        ++ flat_map (λ caller. frame_words (frame_seen (places table.now) caller)) callers.now) }
{
    for caller in callers {
        put_frame(caller, table.next_number(caller.at), out)?;
    }
    Ok(())
}
