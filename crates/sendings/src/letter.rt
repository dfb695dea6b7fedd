ghost use Rattle.std.specs.Prelude.{◌≡◌, IfOk};
ghost use Rattle.sendings.specs.Seen.{message_of};

use crate::message::Message;
use logs::NoMemory;
use std::marker::Model;

/// A letter: a message on its way from a node to a node.
#[derive(Drop)]
pub struct Letter {
    sender: u8,
    receiver: u8,
    message: Message,
}

impl Model for Letter {
    ghost use Rattle.std.specs.Coded.{codes};
    ghost use Rattle.letters.specs.Routes as routes;
    ghost use Rattle.sendings.specs.Seen.{message_of};

    ghost Value = { routes.Letter };

    ghost coded = { Prim.hlevel codes };

    ghost view = { λ letter. record {
      sender = letter.sender;
      receiver = letter.receiver;
      message = message_of letter.message;
    } };
}

impl Letter {
    /// A message from this sender to this receiver.
    pub fn new(sender: u8, receiver: u8, message: Message) -> Letter
        ensures { result ≡ record { sender = sender; receiver = receiver; message = message_of message } }
    {
        Letter {
            sender,
            receiver,
            message,
        }
    }

    /// The node that sent it.
    pub fn sender(&self) -> u8
        ensures { result ≡ self.now.sender }
    {
        self.sender
    }

    /// The node to which it goes.
    pub fn receiver(&self) -> u8
        ensures { result ≡ self.now.receiver }
    {
        self.receiver
    }

    /// What it says.
    pub fn into_message(self) -> Message
        ensures { message_of result ≡ self.message }
    {
        let Letter {
            sender: _,
            receiver: _,
            message,
        } = self;
        message
    }

    /// The same letter once more.
    pub fn copy(&self) -> Result<Letter, NoMemory>
        ensures { IfOk result (λ letter. letter ≡ self.now) }
    {
        let message = self.message.copy()?;
        Ok(Letter {
            sender: self.sender,
            receiver: self.receiver,
            message,
        })
    }
}
