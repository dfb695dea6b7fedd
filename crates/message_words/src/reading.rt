ghost use Rattle.std.specs.Prelude.{◌≡◌, ◌∷◌, pos, IfOk};
ghost use Rattle.std.specs.Option.{option_map};
ghost use Rattle.message_layout.specs.process_semantics.specs.Words.{whole};
ghost use Rattle.message_layout.specs.checkpoint_image.specs.Reading.{message_in};
ghost use Rattle.message_layout.specs.world_semantics.specs.Messages.{Asking, Checkpointing, Replying, Taking};
ghost use Rattle.message_layout.specs.change_layout.specs.Reading as changes;
ghost use Rattle.message_layout.specs.Messages.{Carrying, Changing, Declaring, Reporting};
ghost use Rattle.message_layout.specs.Reading.{answer_in, message_of_kind, node_message_in, report_in, request_in};
ghost use Rattle.message_layout.specs.Reading.{processor_in, taken_in};
ghost use Rattle.message_words.specs.Seen.{message_of};

use crate::message::NodeMessage;
use crate::unread::Unread;
use change_layout::ChangeMessage;
use checkpoint_image::{ImageMessage, from_words};
use gd_words::NoMemory;
use std::alloc::Global;

fn asking_in(words: &[i16]) -> Option<NodeMessage>
    ensures { option_map message_of result ≡ option_map (λ request. Carrying (Asking request))
        (whole (request_in words.now)) }
{
    let mut unread = Unread::new(words);
    let request = unread.request()?;
    let request = unread.ended(request)?;
    Some(NodeMessage::Asking(request))
}

fn replying_in(words: &[i16]) -> Option<NodeMessage>
    ensures { option_map message_of result ≡ option_map (λ reply. Carrying (Replying reply))
        (whole (answer_in words.now)) }
{
    let mut unread = Unread::new(words);
    let reply = unread.reply()?;
    let reply = unread.ended(reply)?;
    Some(NodeMessage::Replying(reply))
}

fn taking_in(words: &[i16]) -> Option<NodeMessage>
    ensures { option_map message_of result ≡ option_map (λ taken. Carrying (Taking taken))
        (whole (taken_in words.now)) }
{
    let mut unread = Unread::new(words);
    let taken = unread.taken()?;
    let taken = unread.ended(taken)?;
    Some(NodeMessage::Taking(taken))
}

fn reporting_in(words: &[i16]) -> Option<NodeMessage>
    ensures { option_map message_of result ≡ option_map (λ (node, silent). Reporting node silent)
        (whole (report_in words.now)) }
{
    let mut unread = Unread::new(words);
    let report = unread.report()?;
    let (node, silent) = unread.ended(report)?;
    Some(NodeMessage::Reporting { node, silent })
}

fn declaring_in(words: &[i16]) -> Option<NodeMessage>
    ensures { option_map message_of result ≡ option_map (λ processor. Declaring processor)
        (whole (processor_in words.now)) }
{
    let mut unread = Unread::new(words);
    let processor = unread.processor()?;
    let processor = unread.ended(processor)?;
    Some(NodeMessage::Declaring(processor))
}

fn image_in(alloc: Global, words: &[i16]) -> Result<Option<ImageMessage>, NoMemory>
    ensures { IfOk result (λ read. read ≡ message_in words.now) }
{
    from_words(alloc, words)
}

fn checkpointing_in(alloc: Global, words: &[i16]) -> Result<Option<NodeMessage>, NoMemory>
    ensures { IfOk result (λ read. option_map message_of read
        ≡ option_map (λ message. Carrying (Checkpointing message)) (message_in words.now)) }
{
    match image_in(alloc, words)? {
        None => Ok(None),
        Some(message) => Ok(Some(NodeMessage::Checkpointing(message))),
    }
}

fn change_in(alloc: Global, words: &[i16]) -> Result<Option<ChangeMessage>, NoMemory>
    ensures { IfOk result (λ read. read ≡ changes.message_in words.now) }
{
    change_layout::from_words(alloc, words)
}

fn changing_in(alloc: Global, words: &[i16]) -> Result<Option<NodeMessage>, NoMemory>
    ensures { IfOk result (λ read. option_map message_of read
        ≡ option_map (λ change. Changing change) (changes.message_in words.now)) }
{
    match change_in(alloc, words)? {
        None => Ok(None),
        Some(change) => Ok(Some(NodeMessage::Changing(change))),
    }
}

/// The message of a kind: its words are given without the kind, and whole.
fn message_of_kind(
    alloc: Global,
    kind: u16,
    left: &[i16],
    words: &[i16],
) -> Result<Option<NodeMessage>, NoMemory>
    requires { words.now ≡ pos kind ∷ left.now }
    ensures { IfOk result (λ read. option_map message_of read ≡ message_of_kind kind left.now) }
{
    match kind {
        1 => Ok(asking_in(left)),
        2 => Ok(replying_in(left)),
        3 => {
            let read = checkpointing_in(alloc, words)?;
            Ok(read)
        }
        4 => Ok(taking_in(left)),
        5 => Ok(reporting_in(left)),
        6 => Ok(declaring_in(left)),
        7 => {
            let read = changing_in(alloc, words)?;
            Ok(read)
        }
        _ => Ok(None),
    }
}

/// The message that words tell, if they tell one. Memory is taken for a checkpoint alone.
pub fn read(alloc: Global, words: &[i16]) -> Result<Option<NodeMessage>, NoMemory>
    ensures { IfOk result (λ read. option_map message_of read ≡ node_message_in words.now) }
{
    match words {
        [kind, left @ ..] if 0 <= *kind => {
            let read = message_of_kind(alloc, kind.cast_unsigned(), left, words)?;
            Ok(read)
        }
        _ => Ok(None),
    }
}
