ghost use Rattle.std.specs.Prelude.{◌≡◌, ◌<◌, [], Some};
ghost use Rattle.std.specs.Option.{IsSome};

use crate::sink::{Gave, Sink};
use gd_words::{List, NoMemory};
use std::alloc::Global;

/// A sink in memory that grows with what is written, until memory runs out.
#[derive(Drop)]
pub struct TextSink {
    held: Vec<u8>,
    faults: u64,
    lost: Option<NoMemory>,
    ghost told: { 0 < faults → IsSome lost },
}

impl TextSink {
    pub fn new(alloc: Global) -> TextSink
        ensures held { ⟦<TextSink as Sink>⟧.held result ≡ Some [] }
        ensures faults { ⟦<TextSink as Sink>⟧.faults result ≡ 0 }
    {
        TextSink {
            held: Vec::new(alloc),
            faults: 0,
            lost: None,
        }
    }

    /// What is written so far.
    pub fn bytes(&self) -> &[u8]
        ensures { ⟦<TextSink as Sink>⟧.held self.now ≡ Some result.now }
    {
        self.held.as_slice()
    }

    /// What is written.
    pub fn into_text(self) -> List<u8>
        ensures { ⟦<TextSink as Sink>⟧.held self ≡ Some result }
    {
        List::from_vec(self.held)
    }

    /// What the write that failed met: memory ran out.
    pub fn memory(&self) -> NoMemory
        requires { 0 < ⟦<TextSink as Sink>⟧.faults self.now }
    {
        match self.lost {
            Some(memory) => memory,
            None => unreachable!(),
        }
    }
}

impl Sink for TextSink {
    ghost use Rattle.std.specs.Prelude.{Some};

    ghost held = { λ sink. Some sink.held.items };

    ghost faults = { λ sink. sink.faults };

    ghost sure = { λ sink n. ⊥ };

    fn put(&mut self, piece: &[u8]) -> Gave {
        match self.held.extend_from_slice(piece) {
            Ok(()) => Gave::Gone(piece.len()),
            Err(error) => {
                self.lost = Some(NoMemory::from(error));
                self.faults = self.faults.saturating_add(1);
                Gave::Failed
            }
        }
    }
}
