use gd_words::{List, NoMemory};

/// Why a path breaks at its last statement. Globals are named by their items' numbers, files in the order of the OPENs.
#[derive(Clone, Copy, PartialEq, Eq)]
pub enum Reason {
    /// A CHECKPOINT doesn't name this global, which may have changed.
    Data(u16),
    /// A CHECKPOINT doesn't name this file, which was asked.
    SyncBlock(u8),
    /// A WRITEREAD or REPLY comes after a request was read.
    Input,
    /// A WRITEREAD asks this file more than its replies are kept.
    Depth(u8),
}

/// Why a program is refused.
#[derive(Drop)]
pub enum RefusalFault {
    /// Its calls go more than 16 procedures deep.
    TooDeep,
    /// With its calls written out it has so many statements, more than 8,192.
    TooLarge(u32),
    /// This path breaks, and no shorter one for the same reason.
    Broken { reason: Reason, path: List<u16> },
    /// Memory ran out.
    NoMemory(NoMemory),
}
