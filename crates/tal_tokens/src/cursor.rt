ghost use Rattle.std.specs.Prelude.{◌≡◌, ◌<◌, ◌≤◌, ◌+◌, length};

use crate::token::At;
use tal_tree::Place;

/// A place in a text with its offset from the text's start.
#[derive(Clone, Copy, PartialEq, Eq)]
pub struct Cursor {
    pub place: Place,
    pub offset: u32,
}

impl Cursor {
    ghost use Rattle.tal_tokens.specs.Cursor.{after, passed, at_front, start_of_text, IsNear};

    /// The start of a text.
    pub fn start() -> Cursor
        ensures place { result ≡ start_of_text }
        ensures near { IsNear result }
    {
        Cursor {
            place: Place { line: 1, column: 1 },
            offset: 0,
        }
    }

    /// The place of a token of `len` bytes that stands here.
    pub fn at(self, len: u32) -> At
        requires { self.offset + len < 4294967296 }
        ensures { result ≡ at_front self len }
    {
        At {
            place: self.place,
            start: self.offset,
            end: self.offset + len,
        }
    }

    /// The cursor after one byte.
    fn after(self, byte: u8) -> Cursor
        requires near { IsNear self }
        requires room { self.offset < 4294967294 }
        ensures place { result ≡ after self byte }
        ensures near { IsNear result }
    {
        let place = if byte == b'\n' {
            Place {
                line: self.place.line + 1,
                column: 1,
            }
        } else {
            Place {
                line: self.place.line,
                column: self.place.column + 1,
            }
        };
        Cursor {
            place,
            offset: self.offset + 1,
        }
    }

    /// The cursor after some bytes.
    pub fn past(self, bytes: &[u8]) -> Cursor
        requires near { IsNear self }
        requires room { self.offset + length bytes.now < 4294967295 }
        ensures place { result ≡ passed self bytes.now }
        ensures near { IsNear result }
        ensures offset { result.offset ≡ self.offset + length bytes.now }
    {
        let mut cursor = self;
        for byte in bytes {
            cursor = cursor.after(*byte);
        }
        cursor
    }
}
