ghost use Rattle.std.specs.Prelude.{◌≡◌, ◌≤◌, ◌++◌, length, true, Some, IfOk, IfSome, OnOk};
ghost use Rattle.std.specs.Option.{option_copied};
ghost use Rattle.process_semantics.specs.Words.{counted_if, with_count_in, long_in};
ghost use Rattle.process_semantics.specs.Image.{disc_words, disc_with, restored_disc};
ghost use Rattle.checkpoint_image.specs.Reading.{Gives};
ghost use Rattle.gd_words.specs.declared.limits.TheConstants.{MOST_MESSAGE_WORDS};

use crate::phase::Phase;
use crate::progress::Progress;
use checkpoint_image::putting::{put_counted, put_long};
use gd_words::limits::MOST_MESSAGE_WORDS;
use gd_words::{List, NoMemory, Words};
use process_semantics::counts::few_words;
use std::alloc::Global;

fn put_counted_if(all: &mut List<i16>, words: Option<&Words>) -> Result<(), NoMemory>
    ensures { OnOk result (all.new ≡ all.old ++ counted_if (option_copied words.entry)) }
{
    match words {
        None => all.push(0)?,
        Some(words) => put_counted(words.as_slice(), all)?,
    }
    Ok(())
}

/// The words of a disc: the request in hand, the number of the last write, and the reply.
pub fn disc_words(alloc: Global, progress: &Progress) -> Result<List<i16>, NoMemory>
    ensures { IfOk result (λ words. words ≡ disc_words progress.now) }
{
    let mut all = List::new(alloc);
    put_counted_if(&mut all, progress.request())?;
    put_long(progress.last_write(), &mut all)?;
    put_counted_if(&mut all, progress.reply())?;
    Ok(all)
}

/// A request or a reply: how many words, at most 16, and these.
fn counted_in(words: &[i16]) -> Option<(&[i16], &[i16])>
    ensures value { Gives (λ r. (r.0.now, r.1.now)) result (with_count_in words.now) }
    ensures few { IfSome result (λ r. length r.0.now ≤ MOST_MESSAGE_WORDS) }
{
    match words {
        [count, rest @ ..] if 0 <= *count && *count <= MOST_MESSAGE_WORDS as i16 => {
            let count = usize::from(count.cast_unsigned());
            if count <= rest.len() {
                Some(rest.split_at(count))
            } else {
                None
            }
        }
        _ => None,
    }
}

/// A number of 32 bits.
fn long_in(words: &[i16]) -> Option<(u32, &[i16])>
    ensures { Gives (λ r. (r.0, r.1.now)) result (long_in words.now) }
{
    match words {
        [high, low, rest @ ..] => {
            let number = u32::from(high.cast_unsigned()) * 65_536 + u32::from(low.cast_unsigned());
            Some((number, rest))
        }
        _ => None,
    }
}

/// The disc of a request in hand, a number and a reply: without a reply it is to act.
fn disc_with(in_hand: bool, request: &[i16], number: u32, reply: &[i16]) -> Option<Progress>
    requires request { length request.now ≤ MOST_MESSAGE_WORDS }
    requires reply { length reply.now ≤ MOST_MESSAGE_WORDS }
    ensures { result ≡ disc_with in_hand request.now number reply.now }
{
    let phase = match (in_hand, request, reply) {
        (false, [], []) => Phase::Idle,
        (false, _, _) => return None,
        (true, _, []) => Phase::Acting(few_words(request)),
        (true, _, _) => Phase::Answering {
            request: few_words(request),
            reply: few_words(reply),
        },
    };
    Some(Progress {
        phase,
        last_write: number,
    })
}

/// The disc that an image restores; none where the words are no image of a disc with a request in hand or none.
pub fn disc_in(words: &[i16], in_hand: bool) -> Option<Progress>
    ensures { result ≡ restored_disc in_hand words.now }
{
    let (request, left) = counted_in(words)?;
    let (number, rest) = long_in(left)?;
    let (reply, left) = counted_in(rest)?;
    if left.is_empty() {
        disc_with(in_hand, request, number, reply)
    } else {
        None
    }
}
