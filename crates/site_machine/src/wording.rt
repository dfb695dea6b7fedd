ghost use Rattle.std.specs.Prelude.{◌≡◌, IfOk};
ghost use Rattle.std.specs.Option.{option_copied};
ghost use Rattle.node.specs.packet_wires.specs.message_layout.specs.Layout.{IsCarriedWithin, IsWithin, words_of};
ghost use Rattle.node.specs.packet_wires.specs.message_layout.specs.world_semantics.specs.Messages.{Checkpointing};
ghost use Rattle.node.specs.packet_wires.specs.Parcels.{form_after, form_of};
ghost use Rattle.open_links.specs.sendings.specs.Seen.{message_of};

use gd_words::{List, NoMemory};
use node::{ImageMessage, change_words, checkpoint_words, reply_words, request_words, taken_words};
use open_links::{Message, WorldCopies};
use std::alloc::Global;

/// The words of a message that was sent in this world last, in the form in which it goes.
pub(crate) fn words_of(
    alloc: Global,
    world: &WorldCopies,
    message: &Message,
) -> Result<List<i16>, NoMemory>
    requires within { IsCarriedWithin (message_of message.now) }
    requires form { IsWithin (form_of world.now.world (message_of message.now)) }
    ensures { IfOk result (λ words. words ≡ words_of (form_of world.now.world (message_of message.now))) }
{
    match message {
        Message::Asking(request) => {
            let words = request_words(alloc, request)?;
            Ok(words)
        }
        Message::Replying(reply) => {
            let words = reply_words(alloc, reply)?;
            Ok(words)
        }
        Message::Checkpointing(checkpoint) => {
            let checkpoint = checkpoint.get();
            let before = world.checkpoint_before(checkpoint.process);
            let words = words_after(alloc, checkpoint, before)?;
            Ok(words)
        }
        Message::Taking(taken) => {
            let words = taken_words(alloc, *taken)?;
            Ok(words)
        }
    }
}

/// The words of a checkpoint, where its process sent this one before it: as what changed since, unless it is the first
/// of its era.
fn words_after(
    alloc: Global,
    checkpoint: &ImageMessage,
    before: Option<&ImageMessage>,
) -> Result<List<i16>, NoMemory>
    requires within { IsCarriedWithin (Checkpointing checkpoint.now) }
    requires form { IsWithin (form_after checkpoint.now (option_copied before)) }
    ensures { IfOk result (λ words. words ≡ words_of (form_after checkpoint.now (option_copied before.entry))) }
{
    match before {
        None => {
            let words = checkpoint_words(alloc, checkpoint)?;
            Ok(words)
        }
        Some(before) => {
            if checkpoint.number == 1 {
                let words = checkpoint_words(alloc, checkpoint)?;
                return Ok(words);
            }
            let words = change_words(alloc, before, checkpoint)?;
            Ok(words)
        }
    }
}
