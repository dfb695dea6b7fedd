ghost use Rattle.std.specs.List.{flat_map};
ghost use Rattle.std.specs.Prelude.{◌≡◌, ◌<◌, ◌^◌, ◌∷◌, ◌++◌, [], length, map, pos, reverse, IfOk, OnOk};
ghost use Rattle.process_semantics.specs.Image.{frame_words, item_words, program_words};
ghost use Rattle.plain_program.specs.SeenFrames.{frames_of};

use crate::execution::Execution;
use crate::frame::{Frame, Frames};
use gd_words::{List, NoMemory};
use std::alloc::Global;

impl<'a> Execution<'a> {
    /// The words of its state with these items. Each has 64 bits, so that the counts have room too.
    pub fn state_words(&self, alloc: Global, items: &[u16]) -> Result<List<i64>, NoMemory>
        ensures { IfOk result (λ words. words ≡ program_words items.now self.now.state) }
    {
        let mut words = List::new(alloc);
        put_frames(self.frames(), &mut words)?;
        self.put_items(items, &mut words)?;
        Ok(words)
    }

    fn put_items(&self, items: &[u16], out: &mut List<i64>) -> Result<(), NoMemory>
        ensures { OnOk result (out.new ≡ out.old
            ++ pos (length items.now) ∷ flat_map (item_words self.now.state) items.now) }
    {
        put_number(items.len(), out)?;
        for item in items {
            put_number(usize::from(*item), out)?;
            put_words(self.words(*item), out)?;
        }
        Ok(())
    }
}

fn put_number(number: usize, out: &mut List<i64>) -> Result<(), NoMemory>
    requires { number < 2 ^ 63 }
    ensures { OnOk result (out.new ≡ out.old ++ pos number ∷ []) }
{
    out.push(number as i64)
}

fn put_words(words: &[i16], out: &mut List<i64>) -> Result<(), NoMemory>
    ensures { OnOk result (out.new ≡ out.old ++ words.now) }
{
    for word in words {
        out.push(i64::from(*word))?;
    }
    Ok(())
}

fn put_frame(frame: &Frame<'_>, out: &mut List<i64>) -> Result<(), NoMemory>
    ensures { OnOk result (out.new ≡ out.old ++ frame_words frame.now) }
{
    put_number(usize::from(frame.procedure()), out)?;
    put_number(frame.next_number(), out)?;
    put_words(frame.locals(), out)
}

/// Puts the frames from MAIN up behind words.
fn put_frames(frames: &Option<Frames<'_>>, out: &mut List<i64>) -> Result<(), NoMemory>
    ensures { OnOk result (out.new ≡ out.old
        ++ pos (length (frames_of frames.now)) ∷ flat_map frame_words (reverse (frames_of frames.now))) }
{
    match frames {
        None => put_number(0, out),
        Some(frames) => {
            let callers = frames.callers.as_slice();
            put_number(callers.len() + 1, out)?;
            put_callers(callers, out)?;
            put_frame(&frames.running, out)
        }
    }
}

fn put_callers(callers: &[Frame<'_>], out: &mut List<i64>) -> Result<(), NoMemory>
    ensures { OnOk result (out.new ≡ out.old ++ flat_map frame_words callers.now) }
{
    for caller in callers {
        put_frame(caller, out)?;
    }
    Ok(())
}
