ghost use Rattle.std.specs.Prelude.{◌≡◌, ◌≢◌, ◌≤◌, IfOk, IfSome, IfNone, length};
ghost use Rattle.change_layout.specs.Changing.{change_of};
ghost use Rattle.change_layout.specs.Layout.{HasShortLists, IsWithinLayout, message_words};
ghost use Rattle.change_layout.specs.Reading.{message_in};
ghost use Rattle.change_layout.specs.declared.message.ChangeMessage.{ChangeMessage};

use crate::message::ChangeMessage;
use crate::putting::{put_contents, put_heading, put_receive};
use crate::reading::message_in;
use receive_changes::{ImageMessage, List, NoMemory, ReadingFault, change_between};
use std::alloc::Global;

/// The words of a checkpoint whose counts and places each fit their words.
pub fn to_words(alloc: Global, message: &ChangeMessage) -> Result<List<i16>, NoMemory>
    requires { HasShortLists message.now }
    ensures { IfOk result (λ words. words ≡ message_words message.now) }
{
    let image = &message.image;
    let mut words = List::new(alloc);
    put_heading(message.process, message.era, message.number, &mut words)?;
    put_contents(image.body.as_slice(), image.files.as_slice(), &mut words)?;
    put_receive(&image.receive, &mut words)?;
    Ok(words)
}

/// The words of a checkpoint as what changed since the one before it. Memory is taken for what changed alone, and for
/// the words.
pub fn words_since(
    alloc: Global,
    before: &ImageMessage,
    message: &ImageMessage,
) -> Result<List<i16>, NoMemory>
    requires few { length message.now.image.receive.openers ≤ 65536 }
    requires short { HasShortLists (change_of before.now message.now) }
    ensures { IfOk result (λ words. words ≡ message_words (change_of before.now message.now)) }
{
    let image = &message.image;
    let receive = change_between(alloc, &before.image.receive, &image.receive)?;
    let mut words = List::new(alloc);
    put_heading(message.process, message.era, message.number, &mut words)?;
    put_contents(image.body.as_slice(), image.files.as_slice(), &mut words)?;
    put_receive(&receive, &mut words)?;
    Ok(words)
}

/// The checkpoint that has these words; none where no such checkpoint within the layout has them.
pub fn from_words(alloc: Global, words: &[i16]) -> Result<Option<ChangeMessage>, NoMemory>
    ensures told { IfOk result (λ read. read ≡ message_in words.now) }
    ensures within { IfOk result (λ read. IfSome read IsWithinLayout) }
    ensures words { IfOk result (λ read. IfSome read (λ message. message_words message ≡ words.now)) }
    ensures none { IfOk result (λ read. IfNone read
        ((message : ChangeMessage) → IsWithinLayout message → message_words message ≢ words.now)) }
{
    match message_in(alloc, words) {
        Ok(message) => Ok(Some(message)),
        Err(ReadingFault::NoMessage) => Ok(None),
        Err(ReadingFault::NoMemory(memory)) => Err(memory),
    }
}

/// Such checkpoints within the layout are told apart by their words.
pub fn words_tell_their_message()
    ensures { (one other : ChangeMessage) → IsWithinLayout one → IsWithinLayout other
        → message_words one ≡ message_words other → one ≡ other }
{}
