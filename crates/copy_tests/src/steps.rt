ghost use Rattle.std.specs.Prelude.{◌≡◌, ◌<◌, ◌+◌, ◌^◌, ℕ, length, IfOk, IsTrue};
ghost use Rattle.process_semantics.specs.Process.{point};
ghost use Rattle.world_semantics.specs.Core.{next_on};

use checkpoint_image::{Behaviour, ImageMessage, RequestStanding, TakenMessage};
use gd_words::{NoMemory, Request, Words};
use process_control::CopyControl;
use process_semantics::Point;
use std::alloc::Global;
use world_semantics::Role;

/// A request of one word to the process 1.
fn request(opener: u16, number: u32, word: i16) -> Request
    ensures { result.opener ≡ opener }
{
    let mut words = Words::new();
    let _full = words.push(word);
    Request {
        process: 1,
        opener,
        number,
        words,
    }
}

/// Whether a copy has an opener.
fn has_opener<B: Behaviour>(
    alloc: Global,
    copy: &CopyControl<B>,
    opener: u16,
) -> Result<bool, NoMemory>
    ensures { IfOk result (λ has. IsTrue has → opener < length copy.now.depths) }
{
    let table = copy.receive().block(alloc)?;
    Ok(usize::from(opener) < table.openers.len())
}

/// Makes the steps inside, and says where the copy stands then.
fn settled<B: Behaviour>(copy: &mut CopyControl<B>) -> Point
    ensures { result ≡ point copy.new.core.state }
{
    for _step in 0..100 {
        match copy.point() {
            Point::Inner => copy.inner(),
            _ => break,
        }
    }
    copy.point()
}

/// Takes a request of one word that stands next.
pub fn take<B: Behaviour>(
    alloc: Global,
    copy: &mut CopyControl<B>,
    opener: u16,
    number: u32,
    word: i16,
) -> Result<bool, NoMemory> {
    let point = settled(copy);
    if !has_opener(alloc, copy, opener)? {
        return Ok(false);
    }
    let request = request(opener, number, word);
    match (point, copy.standing(&request)) {
        (Point::Take, RequestStanding::Next) => {
            copy.take(&request);
            Ok(true)
        }
        _ => Ok(false),
    }
}

/// Sends its checkpoint, or everything; none where it doesn't stand at a checkpoint, and needn't send everything.
pub fn send<B: Behaviour>(
    alloc: Global,
    copy: &mut CopyControl<B>,
) -> Result<Option<ImageMessage>, NoMemory> {
    let point = settled(copy);
    if copy.number() == u32::MAX || (!copy.renewal() && point != Point::AtCheckpoint) {
        return Ok(None);
    }
    let message = copy.checkpoint_out(alloc, 1)?;
    Ok(Some(message))
}

/// Learns that what it sent last was taken: it needn't send everything any more. Answers whether it could and did.
pub fn learn<B: Behaviour>(copy: &mut CopyControl<B>) -> bool {
    let taken = TakenMessage {
        process: 1,
        era: copy.era(),
        number: copy.number(),
    };
    if copy.acknowledged() || !copy.is_of_last(taken) {
        return false;
    }
    copy.acked();
    copy.acknowledged() && !copy.renewal()
}

/// Goes on after its checkpoint. Answers whether it could and did.
pub fn pass<B: Behaviour>(copy: &mut CopyControl<B>) -> bool {
    match settled(copy) {
        Point::AtCheckpoint => {
            copy.pass();
            !copy.sent() && !copy.acknowledged()
        }
        _ => false,
    }
}

/// Whether there is a number after the next one of each file.
fn has_room<B: Behaviour>(copy: &CopyControl<B>) -> bool
    ensures { IsTrue result → (file : ℕ) → next_on copy.now.core file + 1 < 2 ^ 32 }
{
    copy.next().iter().all(|number| *number < u32::MAX)
}

/// Asks on its file 1 under this number, and gets its own word back, which is this one. Answers whether it could and
/// did.
pub fn ask<B: Behaviour>(copy: &mut CopyControl<B>, number: u32, word: i16) -> bool {
    match settled(copy) {
        Point::Ask if has_room(copy) => {
            let asking = copy.ask();
            get(copy, &asking.words)
                && asking.file == 1
                && asking.number == number
                && asking.words.get(0) == Some(word)
        }
        _ => false,
    }
}

/// Gets the reply that it awaits. Answers whether it could and did.
fn get<B: Behaviour>(copy: &mut CopyControl<B>, words: &Words) -> bool {
    match copy.point() {
        Point::Await => {
            copy.got(words);
            true
        }
        _ => false,
    }
}

/// Answers the request of this opener and number with this word. Answers whether it could and did.
pub fn answer<B: Behaviour>(
    copy: &mut CopyControl<B>,
    opener: u16,
    number: u32,
    word: i16,
) -> bool {
    match settled(copy) {
        Point::Answer => {
            let answering = copy.answer();
            answering.opener == opener
                && answering.number == number
                && answering.words.get(0) == Some(word)
        }
        _ => false,
    }
}

/// Tells this kept reply again to a request that comes again.
pub fn repeat<B: Behaviour>(
    alloc: Global,
    copy: &CopyControl<B>,
    opener: u16,
    number: u32,
    word: i16,
) -> Result<bool, NoMemory> {
    if !has_opener(alloc, copy, opener)? {
        return Ok(false);
    }
    match copy.standing(&request(opener, number, 0)) {
        RequestStanding::Kept(words) => Ok(words.get(0) == Some(word)),
        _ => Ok(false),
    }
}

/// Takes over, into this era. Answers whether it could and did.
pub fn take_over<B: Behaviour>(copy: &mut CopyControl<B>, era: u32) -> bool {
    match copy.role() {
        Role::Watching if copy.era() < u32::MAX => {
            copy.take_over();
            copy.era() == era && copy.number() == 0
        }
        _ => false,
    }
}

/// Is to send everything, in this era. Answers whether it could and did.
pub fn renew<B: Behaviour>(copy: &mut CopyControl<B>, era: u32) -> bool {
    if copy.era() == u32::MAX {
        return false;
    }
    copy.renew();
    copy.renewal()
        && copy.era() == era
        && copy.number() == 0
        && !copy.sent()
        && !copy.acknowledged()
}

/// What it has sent comes to its end. Answers whether it could and did.
pub fn end<B: Behaviour>(copy: &mut CopyControl<B>) -> bool {
    let number = copy.number();
    copy.end();
    !copy.sent() && !copy.acknowledged() && copy.number() == number
}

/// Needn't send everything any more. Answers whether it could and did.
pub fn end_renewal<B: Behaviour>(copy: &mut CopyControl<B>) -> bool {
    let was_due = copy.renewal();
    copy.end_renewal();
    was_due && !copy.renewal()
}
