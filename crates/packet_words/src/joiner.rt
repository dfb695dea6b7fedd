ghost use Rattle.std.specs.Prelude.{◌≡◌, [], OnOk, OnErr, IfOk};
ghost use Rattle.packet_words.specs.Pieces.{words_with_piece, message_with_piece};

use crate::piece::Piece;
use gd_words::{List, NoMemory};
use std::alloc::Global;
use std::marker::Model;

/// The words of a message's pieces that came, none at its beginning. Room that it has once it keeps for the messages to
/// come.
#[derive(Drop)]
pub struct Joiner {
    words: Vec<i16>,
    alloc: Global,
}

impl Model for Joiner {
    ghost use Rattle.std.specs.Prelude.{List as Items, ℤ};

    ghost Value = { Items ℤ };

    ghost view = { λ joiner. joiner.words.items };
}

impl Joiner {
    /// No piece yet.
    pub fn new(alloc: Global) -> Joiner
        ensures { result ≡ [] }
    {
        Joiner {
            words: Vec::new(alloc),
            alloc,
        }
    }

    /// Adds a piece; at a last one it gives the message, and the next begins. Without memory nothing changes.
    pub fn add(&mut self, piece: &Piece) -> Result<Option<List<i16>>, NoMemory>
        ensures message { IfOk result (λ message. message ≡ message_with_piece piece.now self.old) }
        ensures left { OnOk result (self.new ≡ words_with_piece piece.now self.old) }
        ensures err { OnErr result (self.new ≡ self.old) }
    {
        let more = piece.words.as_slice();
        if piece.last {
            let mut message = Vec::with_capacity(self.alloc, self.words.len() + more.len())?;
            message.extend_from_slice(self.words.as_slice())?;
            message.extend_from_slice(more)?;
            self.words.clear();
            Ok(Some(List::from_vec(message)))
        } else {
            self.words.extend_from_slice(more)?;
            Ok(None)
        }
    }

    /// Throws away what came of a message.
    pub fn clear(&mut self)
        ensures { self.new ≡ [] }
    {
        self.words.clear();
    }
}
