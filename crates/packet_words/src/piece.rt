ghost use Rattle.std.specs.Prelude.{◌≡◌, ◌≤◌, length, take};
ghost use Rattle.packet_words.specs.Pieces.{piece_at, first_piece};

use std::marker::Model;

/// The words of a piece: at most 10.
#[derive(Drop)]
pub struct PieceWords {
    words: [i16; 10],
    count: u8,
}

impl Model for PieceWords {
    ghost use Rattle.std.specs.Prelude.{◌≤◌, List, take, ℤ};

    ghost Value = { List ℤ };

    ghost view = { λ all. take all.count all.words };

    ghost invariant = { λ all. all.count ≤ 10 };
}

impl PieceWords {
    /// The first 10 words, or all of fewer.
    pub fn first_of(words: &[i16]) -> PieceWords
        ensures { result ≡ take 10 words.now }
    {
        let (front, _) = words.split_at(words.len().min(10));
        let mut room = [0; 10];
        room[..front.len()].copy_from_slice(front);
        PieceWords {
            words: room,
            count: front.len() as u8,
        }
    }

    /// How many words there are.
    pub fn len(&self) -> usize
        ensures value { result ≡ length self.now }
        ensures few { result ≤ 10 }
    {
        usize::from(self.count)
    }

    /// All words, in order.
    pub fn as_slice(&self) -> &[i16]
        ensures value { result.now ≡ self.now }
        ensures few { length result.now ≤ 10 }
    {
        let (front, _) = self.words.split_at(usize::from(self.count));
        front
    }

    /// The same words once more. It takes no memory.
    pub fn copy(&self) -> PieceWords
        ensures { result ≡ self.now }
    {
        PieceWords {
            words: self.words,
            count: self.count,
        }
    }
}

/// A piece of a message: 1 to 10 words, 10 unless it is the last.
#[derive(Drop)]
pub struct Piece {
    pub last: bool,
    pub words: PieceWords,
}

impl Piece {
    /// The same piece once more. It takes no memory.
    pub fn copy(&self) -> Piece
        ensures { result ≡ self.now }
    {
        Piece {
            last: self.last,
            words: self.words.copy(),
        }
    }
}

/// The piece at the front of what is left of a message.
pub fn first_piece(words: &[i16]) -> Piece
    ensures { result ≡ first_piece words.now }
{
    Piece {
        last: words.len() <= 10,
        words: PieceWords::first_of(words),
    }
}

/// The piece `k` of a message, counted from 0; none past the last.
pub fn cut(words: &[i16], k: u32) -> Option<Piece>
    ensures { result ≡ piece_at k words.now }
{
    let start = 10 * k as usize;
    if start < words.len() {
        let (_, rest) = words.split_at(start);
        Some(first_piece(rest))
    } else {
        None
    }
}
