ghost use Rattle.std.specs.Prelude.{◌≡◌, ◌≢◌, IfOk, IfSome, IfNone};
ghost use Rattle.checkpoint_image.specs.Layout.{HasShortLists, IsWithinLayout, message_words};
ghost use Rattle.checkpoint_image.specs.declared.message.ImageMessage.{ImageMessage};

use crate::message::ImageMessage;
use crate::putting::{put_heading, put_image};
use crate::reading::{ReadingFault, message_in};
use process_images::{List, NoMemory};
use std::alloc::Global;

/// How many words a checkpoint has, so that their memory is taken at once: the ten that each has, those of its body,
/// three of each file, three of each opener, and those of each reply with their count.
fn count_words(message: &ImageMessage) -> usize {
    let image = &message.image;
    let openers = image.receive.openers.as_slice();
    let files = image.files.len().saturating_mul(3);
    let mut count = 10_usize
        .saturating_add(image.body.len())
        .saturating_add(files)
        .saturating_add(openers.len().saturating_mul(3));
    for opener in openers {
        for reply in opener.kept.as_slice() {
            count = count.saturating_add(1).saturating_add(reply.len());
        }
    }
    count
}

/// The words of a checkpoint whose counts and whose place in hand each fit a word.
pub fn to_words(alloc: Global, message: &ImageMessage) -> Result<List<i16>, NoMemory>
    requires { HasShortLists message.now }
    ensures { IfOk result (λ words. words ≡ message_words message.now) }
{
    let mut words = List::from_vec(Vec::with_capacity(alloc, count_words(message))?);
    put_heading(message, &mut words)?;
    put_image(&message.image, &mut words)?;
    Ok(words)
}

/// The checkpoint that has these words; none where no checkpoint within the layout has them.
pub fn from_words(alloc: Global, words: &[i16]) -> Result<Option<ImageMessage>, NoMemory>
    ensures within { IfOk result (λ read. IfSome read IsWithinLayout) }
    ensures words { IfOk result (λ read. IfSome read (λ message. message_words message ≡ words.now)) }
    ensures none { IfOk result (λ read. IfNone read
        ((message : ImageMessage) → IsWithinLayout message → message_words message ≢ words.now)) }
{
    match message_in(alloc, words) {
        Ok(message) => Ok(Some(message)),
        Err(ReadingFault::NoMessage) => Ok(None),
        Err(ReadingFault::NoMemory(memory)) => Err(memory),
    }
}

/// Checkpoints within the layout are told apart by their words.
pub fn words_tell_their_message()
    ensures { (one other : ImageMessage) → IsWithinLayout one → IsWithinLayout other
        → message_words one ≡ message_words other → one ≡ other }
{}
