use crate::limits::SECTOR_WORDS;

/// The 8 words of a disc's sector.
pub type Sector = [i16; SECTOR_WORDS];

/// What a process does to its disc device in one step.
#[derive(Clone, Copy, PartialEq, Eq)]
pub enum DeviceCall {
    /// Nothing.
    Nothing,
    /// Reads the sector of this number.
    Read(u8),
    /// Writes the words under this number of the write.
    Write {
        sector: u8,
        words: Sector,
        number: u32,
    },
}
