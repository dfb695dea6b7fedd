ghost use Rattle.gd_io.specs.Puts.{Puts};

use crate::sink::{Gave, Sink};
use thiserror::Error;

/// A write failed.
#[derive(Clone, Copy, Debug, PartialEq, Eq, Error)]
#[error("a write failed")]
pub struct WriteFault;

/// Hands the whole piece to the sink. It takes no memory.
pub fn put_all<K: Sink>(sink: &mut K, piece: &[u8]) -> Result<(), WriteFault>
    ensures { Puts K.held K.faults K.sure sink.old sink.new piece.now result }
{
    let mut at = 0;
    while at < piece.len() {
        let (_, rest) = piece.split_at(at);
        match sink.put(rest) {
            Gave::Gone(n) => at += n,
            Gave::Failed => return Err(WriteFault),
        }
    }
    Ok(())
}
