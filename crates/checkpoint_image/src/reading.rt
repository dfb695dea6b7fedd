ghost use Rattle.std.specs.Prelude.{◌≡◌, ◌≤◌, length};
ghost use Rattle.process_images.specs.process_semantics.specs.Words.{words_in};
ghost use Rattle.checkpoint_image.specs.Reading.{Gives, Tells, number_in, pair_in, body_in, many_in, listed_in};
ghost use Rattle.checkpoint_image.specs.Reading.{file_in, reply_in, opener_in, place_in, receive_in, contents_in};
ghost use Rattle.checkpoint_image.specs.Reading.{image_in, named_in, heading_in, message_in};
ghost use Rattle.checkpoint_image.specs.declared.reading.ReadingFault.TheVariants as variants;
ghost use Rattle.process_images.specs.gd_words.specs.declared.limits.TheConstants.{MOST_MESSAGE_WORDS};

use crate::message::{FileNumber, Image, ImageMessage};
use crate::receive::{OpenerBlock, ReceiveBlock};
use process_images::{List, MOST_MESSAGE_WORDS, NoMemory, Words};
use std::alloc::Global;

/// Why no checkpoint is read: the words aren't those of one, or there is no memory.
#[derive(Clone, Copy, PartialEq, Eq)]
pub enum ReadingFault {
    NoMessage,
    NoMemory(NoMemory),
}

impl From<NoMemory> for ReadingFault {
    ghost from_gives = { λ memory stop. stop ≡ variants.NoMemory memory };

    fn from(memory: NoMemory) -> ReadingFault {
        ReadingFault::NoMemory(memory)
    }
}

/// What stands before an image: the process, the era and the number.
#[derive(Clone, Copy)]
pub struct Heading {
    pub process: u8,
    pub era: u32,
    pub number: u32,
}

/// A number up to a limit.
pub fn number_in(limit: u16, words: &[i16]) -> Option<(u16, &[i16])>
    ensures { Gives (λ r. (r.0, r.1.now)) result (number_in limit words.now) }
{
    match words {
        [word, rest @ ..] if 0 <= *word && word.cast_unsigned() <= limit => {
            Some((word.cast_unsigned(), rest))
        }
        _ => None,
    }
}

/// A number of at most 255.
fn byte_in(words: &[i16]) -> Option<(u8, &[i16])>
    ensures { Gives (λ r. (r.0, r.1.now)) result (number_in 255 words.now) }
{
    let (number, left) = number_in(255, words)?;
    Some((number as u8, left))
}

/// A number of 32 bits.
pub fn pair_in(words: &[i16]) -> Option<(u32, &[i16])>
    ensures { Gives (λ r. (r.0, r.1.now)) result (pair_in words.now) }
{
    match words {
        [high, low, rest @ ..] => {
            let number = u32::from(high.cast_unsigned()) * 65_536 + u32::from(low.cast_unsigned());
            Some((number, rest))
        }
        _ => None,
    }
}

/// The count with which the words begin, at most 32,767, and the words after it. `None` if there is no such count.
pub fn count_in(words: &[i16]) -> Option<(u16, &[i16])>
    ensures { Gives (λ r. (r.0, r.1.now)) result (number_in 32767 words.now) }
{
    number_in(32_767, words)
}

/// The first `count` words, and those after them. `None` if there are fewer.
fn words_in(count: u16, words: &[i16]) -> Option<(&[i16], &[i16])>
    ensures { Gives (λ r. (r.0.now, r.1.now)) result (words_in count words.now) }
{
    let count = usize::from(count);
    if count <= words.len() {
        Some(words.split_at(count))
    } else {
        None
    }
}

/// The place in hand, or none.
pub fn place_in(words: &[i16]) -> Option<(Option<u16>, &[i16])>
    ensures { Gives (λ r. (r.0, r.1.now)) result (place_in words.now) }
{
    match words {
        [-1, rest @ ..] => Some((None, rest)),
        [word, rest @ ..] if 0 <= *word => Some((Some(word.cast_unsigned()), rest)),
        _ => None,
    }
}

/// The number by which messages of a kind are told, and what stands before an image.
pub fn heading_in(kind: u16, words: &[i16]) -> Option<(Heading, &[i16])>
    ensures { Gives (λ r. (r.0, r.1.now)) result (heading_in kind words.now) }
{
    let (read, left) = number_in(kind, words)?;
    if read == kind { named_in(left) } else { None }
}

fn named_in(words: &[i16]) -> Option<(Heading, &[i16])>
    ensures { Gives (λ r. (r.0, r.1.now)) result (named_in words.now) }
{
    let (process, left) = byte_in(words)?;
    let (era, left) = pair_in(left)?;
    let (number, rest) = pair_in(left)?;
    let heading = Heading {
        process,
        era,
        number,
    };
    Some((heading, rest))
}

fn file_in(words: &[i16]) -> Option<(FileNumber, &[i16])>
    ensures { Gives (λ r. (r.0, r.1.now)) result (file_in words.now) }
{
    let (file, left) = byte_in(words)?;
    let (next, rest) = pair_in(left)?;
    Some((FileNumber { file, next }, rest))
}

/// These words as those of a reply.
fn kept_of(words: &[i16]) -> Words
    requires { length words.now ≤ MOST_MESSAGE_WORDS }
    ensures { result ≡ words.now }
{
    let mut kept = Words::new();
    for word in words {
        let _room = kept.push(*word);
    }
    kept
}

/// A reply, which has at most 16 words.
fn reply_in(words: &[i16]) -> Option<(Words, &[i16])>
    ensures { Gives (λ r. (r.0, r.1.now)) result (reply_in words.now) }
{
    let (count, left) = number_in(MOST_MESSAGE_WORDS as u16, words)?;
    let (front, rest) = words_in(count, left)?;
    Some((kept_of(front), rest))
}

fn body_in(alloc: Global, words: &[i16]) -> Result<(List<i16>, &[i16]), ReadingFault>
    ensures { Tells (λ r. (r.0, r.1.now)) result (body_in words.now) }
{
    let Some((count, left)) = count_in(words) else {
        return Err(ReadingFault::NoMessage);
    };
    let Some((front, rest)) = words_in(count, left) else {
        return Err(ReadingFault::NoMessage);
    };
    let mut body = List::new(alloc);
    body.extend_from_slice(front)?;
    Ok((body, rest))
}

fn files_in(alloc: Global, words: &[i16]) -> Result<(List<FileNumber>, &[i16]), ReadingFault>
    ensures { Tells (λ r. (r.0, r.1.now)) result (listed_in file_in words.now) }
{
    let Some((count, left)) = count_in(words) else {
        return Err(ReadingFault::NoMessage);
    };
    many_files(alloc, count, left)
}

fn many_files(
    alloc: Global,
    count: u16,
    words: &[i16],
) -> Result<(List<FileNumber>, &[i16]), ReadingFault>
    ensures { Tells (λ r. (r.0, r.1.now)) result (many_in file_in count words.now) }
{
    let mut files = List::new(alloc);
    let mut left = words;
    for _turn in 0..count {
        let Some((file, rest)) = file_in(left) else {
            return Err(ReadingFault::NoMessage);
        };
        files.push(file)?;
        left = rest;
    }
    Ok((files, left))
}

fn replies_in(alloc: Global, words: &[i16]) -> Result<(List<Words>, &[i16]), ReadingFault>
    ensures { Tells (λ r. (r.0, r.1.now)) result (listed_in reply_in words.now) }
{
    let Some((count, left)) = count_in(words) else {
        return Err(ReadingFault::NoMessage);
    };
    many_replies(alloc, count, left)
}

pub fn many_replies(
    alloc: Global,
    count: u16,
    words: &[i16],
) -> Result<(List<Words>, &[i16]), ReadingFault>
    ensures { Tells (λ r. (r.0, r.1.now)) result (many_in reply_in count words.now) }
{
    let mut kept = List::new(alloc);
    let mut left = words;
    for _turn in 0..count {
        let Some((reply, rest)) = reply_in(left) else {
            return Err(ReadingFault::NoMessage);
        };
        kept.push(reply)?;
        left = rest;
    }
    Ok((kept, left))
}

fn opener_in(alloc: Global, words: &[i16]) -> Result<(OpenerBlock, &[i16]), ReadingFault>
    ensures { Tells (λ r. (r.0, r.1.now)) result (opener_in words.now) }
{
    let Some((taken, left)) = pair_in(words) else {
        return Err(ReadingFault::NoMessage);
    };
    let (kept, rest) = replies_in(alloc, left)?;
    Ok((OpenerBlock { taken, kept }, rest))
}

fn openers_in(alloc: Global, words: &[i16]) -> Result<(List<OpenerBlock>, &[i16]), ReadingFault>
    ensures { Tells (λ r. (r.0, r.1.now)) result (listed_in opener_in words.now) }
{
    let Some((count, left)) = count_in(words) else {
        return Err(ReadingFault::NoMessage);
    };
    many_openers(alloc, count, left)
}

fn many_openers(
    alloc: Global,
    count: u16,
    words: &[i16],
) -> Result<(List<OpenerBlock>, &[i16]), ReadingFault>
    ensures { Tells (λ r. (r.0, r.1.now)) result (many_in opener_in count words.now) }
{
    let mut openers = List::new(alloc);
    let mut left = words;
    for _turn in 0..count {
        let (opener, rest) = opener_in(alloc, left)?;
        openers.push(opener)?;
        left = rest;
    }
    Ok((openers, left))
}

fn receive_in(alloc: Global, words: &[i16]) -> Result<(ReceiveBlock, &[i16]), ReadingFault>
    ensures { Tells (λ r. (r.0, r.1.now)) result (receive_in words.now) }
{
    let (openers, left) = openers_in(alloc, words)?;
    let Some((in_hand, rest)) = place_in(left) else {
        return Err(ReadingFault::NoMessage);
    };
    Ok((ReceiveBlock { openers, in_hand }, rest))
}

/// The body and the files.
pub fn contents_in(
    alloc: Global,
    words: &[i16],
) -> Result<(List<i16>, List<FileNumber>, &[i16]), ReadingFault>
    ensures { Tells (λ r. ((r.0, r.1), r.2.now)) result (contents_in words.now) }
{
    let (body, left) = body_in(alloc, words)?;
    let (files, rest) = files_in(alloc, left)?;
    Ok((body, files, rest))
}

fn image_in(alloc: Global, words: &[i16]) -> Result<(Image, &[i16]), ReadingFault>
    ensures { Tells (λ r. (r.0, r.1.now)) result (image_in words.now) }
{
    let (body, files, left) = contents_in(alloc, words)?;
    let (receive, rest) = receive_in(alloc, left)?;
    let image = Image {
        body,
        files,
        receive,
    };
    Ok((image, rest))
}

/// The checkpoint of these words.
pub fn message_in(alloc: Global, words: &[i16]) -> Result<ImageMessage, ReadingFault>
    ensures { Tells (λ message. message) result (message_in words.now) }
{
    let Some((heading, left)) = heading_in(3, words) else {
        return Err(ReadingFault::NoMessage);
    };
    let (image, rest) = image_in(alloc, left)?;
    if rest.is_empty() {
        Ok(ImageMessage {
            process: heading.process,
            era: heading.era,
            number: heading.number,
            image,
        })
    } else {
        Err(ReadingFault::NoMessage)
    }
}
