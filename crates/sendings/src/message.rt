ghost use Rattle.std.specs.Prelude.{◌≡◌, IfOk};
ghost use Rattle.sendings.specs.Seen.{message_of};

use letters::{ImageMessage, TakenMessage};
use logs::{NoMemory, Reply, Request, Shared};

/// A message from a node to a node. A checkpoint is held together with the others who have it.
#[derive(Drop)]
pub enum Message {
    Asking(Request),
    Replying(Reply),
    Checkpointing(Shared<ImageMessage>),
    Taking(TakenMessage),
}

impl Message {
    /// The same message once more. A checkpoint gets one more owner.
    pub fn copy(&self) -> Result<Message, NoMemory>
        ensures { IfOk result (λ message. message_of message ≡ message_of self.now) }
    {
        match self {
            Message::Asking(request) => Ok(Message::Asking(copy_request(request))),
            Message::Replying(reply) => Ok(Message::Replying(copy_reply(reply))),
            Message::Checkpointing(checkpoint) => {
                let checkpoint = checkpoint.share()?;
                Ok(Message::Checkpointing(checkpoint))
            }
            Message::Taking(taken) => Ok(Message::Taking(*taken)),
        }
    }
}

/// The same request once more.
pub fn copy_request(request: &Request) -> Request
    ensures { result ≡ request.now }
{
    Request {
        process: request.process,
        opener: request.opener,
        number: request.number,
        words: request.words.copy(),
    }
}

/// The same reply once more.
pub fn copy_reply(reply: &Reply) -> Reply
    ensures { result ≡ reply.now }
{
    Reply {
        process: reply.process,
        opener: reply.opener,
        number: reply.number,
        words: reply.words.copy(),
    }
}
