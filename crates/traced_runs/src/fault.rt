use gd_io::WriteFault;
use gd_words::NoMemory;

/// Why a run was not told to its end.
#[derive(Clone, Copy, PartialEq, Eq, Drop)]
pub enum TraceFault {
    NoMemory(NoMemory),
    Write(WriteFault),
}
