ghost use Rattle.receive_changes.specs.checkpoint_image.specs.Reading.{Tells, listed_in, many_in};
ghost use Rattle.change_layout.specs.Reading.{added_in, change_in, image_in, message_in, receive_in};

use crate::message::{ChangeImage, ChangeMessage};
use receive_changes::{
    List, MOST_DEPTH, OpenerChange, ReadingFault, ReceiveChange, contents_in, count_in, heading_in,
    many_replies, pair_in, place_in,
};
use std::alloc::Global;

/// What changed of the opener at a place, to which so many replies were added.
fn added_in(
    alloc: Global,
    opener: u16,
    count: u16,
    words: &[i16],
) -> Result<(OpenerChange, &[i16]), ReadingFault>
    ensures { Tells (λ r. (r.0, r.1.now)) result (added_in opener count words.now) }
{
    let Some((taken, left)) = pair_in(words) else {
        return Err(ReadingFault::NoMessage);
    };
    let (added, rest) = many_replies(alloc, count, left)?;
    let change = OpenerChange {
        opener,
        taken,
        added,
    };
    Ok((change, rest))
}

fn change_in(alloc: Global, words: &[i16]) -> Result<(OpenerChange, &[i16]), ReadingFault>
    ensures { Tells (λ r. (r.0, r.1.now)) result (change_in words.now) }
{
    let Some((both, left)) = count_in(words) else {
        return Err(ReadingFault::NoMessage);
    };
    let count = both % 8;
    if count <= u16::from(MOST_DEPTH) {
        added_in(alloc, both / 8, count, left)
    } else {
        Err(ReadingFault::NoMessage)
    }
}

fn changes_in(alloc: Global, words: &[i16]) -> Result<(List<OpenerChange>, &[i16]), ReadingFault>
    ensures { Tells (λ r. (r.0, r.1.now)) result (listed_in change_in words.now) }
{
    let Some((count, left)) = count_in(words) else {
        return Err(ReadingFault::NoMessage);
    };
    many_changes(alloc, count, left)
}

fn many_changes(
    alloc: Global,
    count: u16,
    words: &[i16],
) -> Result<(List<OpenerChange>, &[i16]), ReadingFault>
    ensures { Tells (λ r. (r.0, r.1.now)) result (many_in change_in count words.now) }
{
    let mut changes = List::new(alloc);
    let mut left = words;
    for _turn in 0..count {
        let (change, rest) = change_in(alloc, left)?;
        changes.push(change)?;
        left = rest;
    }
    Ok((changes, left))
}

fn receive_in(alloc: Global, words: &[i16]) -> Result<(ReceiveChange, &[i16]), ReadingFault>
    ensures { Tells (λ r. (r.0, r.1.now)) result (receive_in words.now) }
{
    let (changes, left) = changes_in(alloc, words)?;
    let Some((in_hand, rest)) = place_in(left) else {
        return Err(ReadingFault::NoMessage);
    };
    Ok((ReceiveChange { changes, in_hand }, rest))
}

fn image_in(alloc: Global, words: &[i16]) -> Result<(ChangeImage, &[i16]), ReadingFault>
    ensures { Tells (λ r. (r.0, r.1.now)) result (image_in words.now) }
{
    let (body, files, left) = contents_in(alloc, words)?;
    let (receive, rest) = receive_in(alloc, left)?;
    let image = ChangeImage {
        body,
        files,
        receive,
    };
    Ok((image, rest))
}

/// The checkpoint of these words.
pub fn message_in(alloc: Global, words: &[i16]) -> Result<ChangeMessage, ReadingFault>
    ensures { Tells (λ message. message) result (message_in words.now) }
{
    let Some((heading, left)) = heading_in(7, words) else {
        return Err(ReadingFault::NoMessage);
    };
    let (image, rest) = image_in(alloc, left)?;
    if rest.is_empty() {
        Ok(ChangeMessage {
            process: heading.process,
            era: heading.era,
            number: heading.number,
            image,
        })
    } else {
        Err(ReadingFault::NoMessage)
    }
}
