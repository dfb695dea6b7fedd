ghost use Rattle.std.specs.Prelude.{◌≡◌};

use crate::sink::{Gave, Sink};
use crate::source::{Source, Took};
use std::io::{Read, Write};

/// A reader of std. It tells the bytes that the reader tells, none at a file or a stream, and may always fail.
#[derive(Drop)]
pub struct StdSource<R> {
    reader: R,
    faults: u64,
}

impl<R: Read + Drop> StdSource<R> {
    /// A source of what the reader gives.
    pub fn new(reader: R) -> StdSource<R>
        ensures left { ⟦<StdSource<R> as Source>⟧.left result ≡ R.remaining reader }
        ensures faults { ⟦<StdSource<R> as Source>⟧.faults result ≡ 0 }
    {
        StdSource { reader, faults: 0 }
    }
}

impl<R: Read + Drop> Source for StdSource<R> {
    ghost left = { λ source. R.remaining source.reader };

    ghost faults = { λ source. source.faults };

    ghost sure = { λ _. ⊥ };

    fn take(&mut self, room: &mut [u8]) -> Took {
        match self.reader.read(room) {
            Ok(0) => Took::End,
            Ok(n) => Took::Got(n),
            Err(_) => {
                self.faults = self.faults.saturating_add(1);
                Took::Failed
            }
        }
    }
}

/// A writer of std. It tells the bytes that the writer tells, none at a file or a stream, and may always fail.
#[derive(Drop)]
pub struct StdSink<W> {
    writer: W,
    faults: u64,
}

impl<W: Write + Drop> StdSink<W> {
    /// A sink that gives all to the writer.
    pub fn new(writer: W) -> StdSink<W>
        ensures held { ⟦<StdSink<W> as Sink>⟧.held result ≡ W.contents writer }
        ensures faults { ⟦<StdSink<W> as Sink>⟧.faults result ≡ 0 }
    {
        StdSink { writer, faults: 0 }
    }
}

impl<W: Write + Drop> Sink for StdSink<W> {
    ghost held = { λ sink. W.contents sink.writer };

    ghost faults = { λ sink. sink.faults };

    ghost sure = { λ _ _. ⊥ };

    fn put(&mut self, piece: &[u8]) -> Gave {
        match self.writer.write(piece) {
            Ok(n) if n > 0 || piece.is_empty() => Gave::Gone(n),
            Ok(_) | Err(_) => {
                self.faults = self.faults.saturating_add(1);
                Gave::Failed
            }
        }
    }
}
