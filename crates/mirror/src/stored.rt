use gd_words::Sector;
use gd_words::limits::SECTOR_WORDS;

/// A sector of a drive: its words, and the number of the write that put them, 0 where none did.
#[derive(Clone, Copy, PartialEq, Eq)]
pub struct Stored {
    pub words: Sector,
    pub number: u32,
}

impl Stored {
    /// A sector on which nothing was written.
    pub const BLANK: Stored = Stored {
        words: [0; SECTOR_WORDS],
        number: 0,
    };
}
