ghost use Rattle.std.specs.Prelude.{◌≡◌, ◌≢◌, ◌≤◌, OnOk};
ghost use Rattle.std.specs.Io.KnownBytes.{IsAtEnd};
ghost use Rattle.gd_io.specs.Faults.{HasRisen};
ghost use Rattle.gd_io.specs.Reads.{ReadsFrom};

use crate::source::{Source, Took};
use gd_words::{List, NoMemory};
use std::alloc::Global;
use thiserror::Error;

/// Why not all bytes of a source are had.
#[derive(Clone, Copy, Debug, PartialEq, Eq, Error)]
pub enum SourceFault {
    #[error("a read failed")]
    Failed,
    #[error("there are too many bytes")]
    TooLong,
    #[error("out of memory")]
    NoMemory(NoMemory),
}

const CHUNK: usize = 4096;

/// All bytes that are left, up to `most` of them. Of a longer source one byte more is taken, which shows that it is
/// longer. Nothing that was taken is put back.
pub fn read_all<S: Source>(
    alloc: Global,
    source: &mut S,
    most: usize,
) -> Result<List<u8>, SourceFault>
    ensures bytes { ReadsFrom most (S.left source.old) (S.left source.new) result }
    ensures end { OnOk result (IsAtEnd (S.left source.new)) }
    ensures later { S.faults source.old ≤ S.faults source.new }
    ensures cause { result ≡ Err SourceFault.Failed → HasRisen (S.faults source.old) (S.faults source.new) }
    ensures still { S.sure source.old → S.sure source.new × (S.faults source.new ≡ S.faults source.old) }
    ensures never { S.sure source.old → result ≢ Err SourceFault.Failed }
{
    let mut bytes = Vec::new(alloc);
    let mut room = [0; CHUNK];
    while bytes.len() <= most {
        let wanted = (most - bytes.len()).min(CHUNK - 1) + 1;
        let (start, _) = room.split_at_mut(wanted);
        match source.take(start) {
            Took::Got(0) => return Ok(List::from_vec(bytes)),
            Took::Got(n) => {
                let (piece, _) = start.split_at(n);
                if let Err(error) = bytes.extend_from_slice(piece) {
                    return Err(SourceFault::NoMemory(NoMemory::from(error)));
                }
            }
            Took::End => return Ok(List::from_vec(bytes)),
            Took::Failed => return Err(SourceFault::Failed),
        }
    }
    Err(SourceFault::TooLong)
}
