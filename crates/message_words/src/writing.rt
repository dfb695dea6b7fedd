ghost use Rattle.std.specs.Prelude.{◌≡◌, ◌≤◌, ◌∷◌, ◌++◌, length, pos, IfOk, OnOk};
ghost use Rattle.message_layout.specs.process_semantics.specs.Words.{with_count, long};
ghost use Rattle.message_layout.specs.checkpoint_image.specs.Layout.{HasShortLists};
ghost use Rattle.message_layout.specs.world_semantics.specs.Messages.{Asking, Checkpointing, Replying, Taking};
ghost use Rattle.message_layout.specs.Layout.{words_of};
ghost use Rattle.message_layout.specs.change_layout.specs.Changing.{change_of};
ghost use Rattle.message_layout.specs.change_layout.specs.Layout as changes;
ghost use Rattle.message_layout.specs.Messages.{Carrying, Changing, Declaring, Reporting};

use crate::masks::mask_of;
use alive_regroup::ProcessorSet;
use change_layout::words_since;
use checkpoint_image::putting::{put_counted, put_long};
use checkpoint_image::{ImageMessage, TakenMessage, to_words};
use gd_words::{List, NoMemory, Reply, Request, Words};
use std::alloc::Global;

/// Most words of a request or a reply.
const MOST: usize = 22;

/// Puts what stands after the kind of a request or a reply.
fn put_call(
    process: u8,
    opener: u16,
    number: u32,
    words: &Words,
    out: &mut List<i16>,
) -> Result<(), NoMemory>
    requires { opener ≤ 32767 }
    ensures { OnOk result (out.new ≡ out.old ++ (pos process ∷ pos opener ∷ long number ++ with_count words.now)) }
{
    out.push(i16::from(process))?;
    out.push(opener as i16)?;
    put_long(number, out)?;
    put_counted(words.as_slice(), out)?;
    Ok(())
}

/// The words of a request.
pub fn request_words(alloc: Global, request: &Request) -> Result<List<i16>, NoMemory>
    requires { request.now.opener ≤ 32767 }
    ensures { IfOk result (λ words. words ≡ words_of (Carrying (Asking request.now))) }
{
    let mut words = List::from_vec(Vec::with_capacity(alloc, MOST)?);
    words.push(1)?;
    put_call(
        request.process,
        request.opener,
        request.number,
        &request.words,
        &mut words,
    )?;
    Ok(words)
}

/// The words of a reply.
pub fn reply_words(alloc: Global, reply: &Reply) -> Result<List<i16>, NoMemory>
    requires { reply.now.opener ≤ 32767 }
    ensures { IfOk result (λ words. words ≡ words_of (Carrying (Replying reply.now))) }
{
    let mut words = List::from_vec(Vec::with_capacity(alloc, MOST)?);
    words.push(2)?;
    put_call(
        reply.process,
        reply.opener,
        reply.number,
        &reply.words,
        &mut words,
    )?;
    Ok(words)
}

/// The words of a checkpoint.
pub fn checkpoint_words(alloc: Global, message: &ImageMessage) -> Result<List<i16>, NoMemory>
    requires { HasShortLists message.now }
    ensures { IfOk result (λ words. words ≡ words_of (Carrying (Checkpointing message.now))) }
{
    to_words(alloc, message)
}

/// The words of a checkpoint as what changed since the one before it.
pub fn change_words(
    alloc: Global,
    before: &ImageMessage,
    message: &ImageMessage,
) -> Result<List<i16>, NoMemory>
    requires few { length message.now.image.receive.openers ≤ 65536 }
    requires short { changes.HasShortLists (change_of before.now message.now) }
    ensures { IfOk result (λ words. words ≡ words_of (Changing (change_of before.now message.now))) }
{
    words_since(alloc, before, message)
}

/// The words that say that a checkpoint was taken.
pub fn taken_words(alloc: Global, taken: TakenMessage) -> Result<List<i16>, NoMemory>
    ensures { IfOk result (λ words. words ≡ words_of (Carrying (Taking taken))) }
{
    let mut words = List::from_vec(Vec::with_capacity(alloc, 6)?);
    words.push(4)?;
    words.push(i16::from(taken.process))?;
    put_long(taken.era, &mut words)?;
    put_long(taken.number, &mut words)?;
    Ok(words)
}

/// The words of the report of a node.
pub fn report_words(alloc: Global, node: u8, silent: ProcessorSet) -> Result<List<i16>, NoMemory>
    ensures { IfOk result (λ words. words ≡ words_of (Reporting node silent)) }
{
    let mut words = List::from_vec(Vec::with_capacity(alloc, 3)?);
    words.push(5)?;
    words.push(i16::from(node))?;
    words.push(mask_of(silent).cast_signed())?;
    Ok(words)
}

/// The words that say that a processor is down.
pub fn down_words(alloc: Global, processor: u8) -> Result<List<i16>, NoMemory>
    ensures { IfOk result (λ words. words ≡ words_of (Declaring processor)) }
{
    let mut words = List::from_vec(Vec::with_capacity(alloc, 2)?);
    words.push(6)?;
    words.push(i16::from(processor))?;
    Ok(words)
}
