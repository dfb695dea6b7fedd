use receive_changes::{FileNumber, List, ReceiveChange};

/// What a later checkpoint of an era carries: the words of its process's image, the files that it names, and what
/// changed in the receive table since the checkpoint before it.
#[derive(Drop)]
pub struct ChangeImage {
    pub body: List<i16>,
    pub files: List<FileNumber>,
    pub receive: ReceiveChange,
}

/// A later checkpoint of an era: the number counts those of the era from 1.
#[derive(Drop)]
pub struct ChangeMessage {
    pub process: u8,
    pub era: u32,
    pub number: u32,
    pub image: ChangeImage,
}
