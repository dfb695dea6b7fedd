ghost use Rattle.std.specs.Prelude.{◌≡◌, ◌+◌, ◌<◌, ◌^◌, IfOk, Some, None};
ghost use Rattle.std.specs.Bool.{OnTrue, OnFalse};
ghost use Rattle.process_images.specs.gd_words.specs.Ranges.{HasNext};
ghost use Rattle.process_images.specs.process_semantics.specs.declared.point.Point.TheVariants.{Inner, Take, Ask};
ghost use Rattle.process_images.specs.process_semantics.specs.declared.point.Point.TheVariants.{Await, Answer};
ghost use Rattle.process_images.specs.process_semantics.specs.declared.point.Point.TheVariants.{AtCheckpoint, Device};
ghost use Rattle.process_images.specs.process_semantics.specs.Image.{image_of, listed_items, listed_files};
ghost use Rattle.process_images.specs.process_semantics.specs.Image.{state_from_words};
ghost use Rattle.process_images.specs.process_semantics.specs.Process.{ProcessState, point, in_hand, after_inner};
ghost use Rattle.process_images.specs.process_semantics.specs.Process.{after_took, asked_file, asked_words};
ghost use Rattle.process_images.specs.process_semantics.specs.Process.{after_asked, after_got, answer_of};
ghost use Rattle.process_images.specs.process_semantics.specs.Process.{after_answered, after_checkpoint, call_of};
ghost use Rattle.process_images.specs.process_semantics.specs.Process.{after_device};
ghost use Rattle.process_images.specs.whole_states.specs.Listing.{MayList};
ghost use Rattle.process_images.specs.Images.{all_files_of, everything_of};
ghost use Rattle.checkpoint_image.specs.Behaving.{last_write_of};

use process_images::{Asked, DeviceCall, List, NoMemory, Point, Sector, Words};
use std::alloc::Global;

/// What a checkpoint names: items and files by their numbers, in the order in which they stand in it.
#[derive(Drop)]
pub struct Listed {
    pub items: List<u16>,
    pub files: List<u8>,
}

/// A process, program or disc, seen from the machine that runs it: where it stands, its step there, and its image, as
/// in Bartlett's "A NonStop Kernel". No call but `image` takes memory.
pub trait Behaviour: Drop {
    ghost state: { Self → ProcessState };

    /// Where it stands, which says what its next step is.
    fn at(&self) -> Point
        ensures { result ≡ point (state self.now) };

    /// Whether a request is in hand.
    fn in_hand(&self) -> bool
        ensures { result ≡ in_hand (state self.now) };

    /// The step inside.
    fn inner(&mut self)
        requires { point (state self.old) ≡ Inner }
        ensures { state self.new ≡ after_inner (state self.old) };

    /// Takes a request.
    fn took(&mut self, words: &Words)
        requires { point (state self.old) ≡ Take }
        ensures { state self.new ≡ after_took (state self.old) words.now };

    /// Asks on a file, and awaits the reply from now on.
    fn asked(&mut self) -> Asked
        requires { point (state self.old) ≡ Ask }
        ensures file { result.file ≡ asked_file (state self.old) }
        ensures words { result.words ≡ asked_words (state self.old) }
        ensures state { state self.new ≡ after_asked (state self.old) };

    /// Gets the reply that it awaits.
    fn got(&mut self, words: &Words)
        requires { point (state self.old) ≡ Await }
        ensures { state self.new ≡ after_got (state self.old) words.now };

    /// Answers the request in hand.
    fn answered(&mut self) -> Words
        requires { point (state self.old) ≡ Answer }
        ensures words { result ≡ answer_of (state self.old) }
        ensures state { state self.new ≡ after_answered (state self.old) };

    /// What it does to its device.
    fn device(&self) -> DeviceCall
        requires point { point (state self.now) ≡ Device }
        requires numbers { HasNext (last_write_of (state self.now)) }
        ensures { result ≡ call_of (state self.now) };

    /// The step at its device, with the words that stood on the sector.
    fn device_done(&mut self, found: &Sector)
        requires point { point (state self.old) ≡ Device }
        requires numbers { HasNext (last_write_of (state self.old)) }
        ensures { state self.new ≡ after_device (state self.old) found.now };

    /// What it names at a checkpoint.
    fn listed(&self) -> &Listed
        requires { point (state self.now) ≡ AtCheckpoint }
        ensures items { result.now.items ≡ listed_items (state self.now) }
        ensures files { result.now.files ≡ listed_files (state self.now) };

    /// All that it may name: each item that has words, and each file that is opened to a process.
    fn everything(&self) -> &Listed
        ensures items { result.now.items ≡ everything_of (state self.now) }
        ensures files { result.now.files ≡ all_files_of (state self.now) };

    /// Goes on after a checkpoint.
    fn checkpointed(&mut self)
        requires { point (state self.old) ≡ AtCheckpoint }
        ensures { state self.new ≡ after_checkpoint (state self.old) };

    /// The words of its image with what is listed: at a checkpoint that of the state after it.
    fn image(&self, alloc: Global, listed: &Listed) -> Result<List<i16>, NoMemory>
        requires { MayList (state self.now) listed.now.items listed.now.files }
        ensures { IfOk result (λ words. words ≡ image_of listed.now.items (state self.now)) };

    /// Puts an image into it, with a request in hand or none; false where the words are no image of it, and then
    /// nothing changes.
    fn apply(&mut self, words: &[i16], in_hand: bool) -> bool
        ensures applied { OnTrue result (state_from_words (state self.old) in_hand words.now ≡ Some (state self.new)) }
        ensures refused { OnFalse result (state_from_words (state self.old) in_hand words.now ≡ None) }
        ensures unchanged { OnFalse result (state self.new ≡ state self.old) };
}
