use crate::receive::ReceiveBlock;
use process_images::List;

/// A file that a checkpoint names, and the number of the next request on it.
#[derive(Clone, Copy, PartialEq, Eq)]
pub struct FileNumber {
    pub file: u8,
    pub next: u32,
}

/// What a checkpoint carries: the words of its process's image, the files that it names, and the whole receive table.
#[derive(Drop)]
pub struct Image {
    pub body: List<i16>,
    pub files: List<FileNumber>,
    pub receive: ReceiveBlock,
}

/// A checkpoint of a process: the number counts those of the era from 1.
#[derive(Drop)]
pub struct ImageMessage {
    pub process: u8,
    pub era: u32,
    pub number: u32,
    pub image: Image,
}

/// The message that the checkpoint of this era and number was taken.
#[derive(Clone, Copy, PartialEq, Eq)]
pub struct TakenMessage {
    pub process: u8,
    pub era: u32,
    pub number: u32,
}
