ghost use Rattle.std.specs.Prelude.{◌≡◌};
ghost use Rattle.sendings.specs.Seen.{message_of};

use crate::message::Message;
use std::marker::Model;

/// A message that is sent, or sent again, at a node.
#[derive(Drop)]
pub struct Sending {
    node: u8,
    message: Message,
}

impl Model for Sending {
    ghost use Rattle.std.specs.Coded.{codes};
    ghost use Rattle.letters.specs.world_semantics.specs.Messages as messages;
    ghost use Rattle.sendings.specs.Seen.{message_of};

    ghost Value = { messages.Sending };

    ghost coded = { Prim.hlevel codes };

    ghost view = { λ sending. record { node = sending.node; message = message_of sending.message } };
}

impl Sending {
    /// A message that this node sends.
    pub fn new(node: u8, message: Message) -> Sending
        ensures { result ≡ record { node = node; message = message_of message } }
    {
        Sending { node, message }
    }

    /// The node that sends.
    pub fn node(&self) -> u8
        ensures { result ≡ self.now.node }
    {
        self.node
    }

    /// What it sends, lent.
    pub fn message(&self) -> &Message
        ensures { message_of result.now ≡ self.now.message }
    {
        &self.message
    }

    /// What it sends.
    pub fn into_message(self) -> Message
        ensures { message_of result ≡ self.message }
    {
        let Sending { node: _, message } = self;
        message
    }
}
