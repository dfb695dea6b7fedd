ghost use Rattle.std.specs.Prelude.{◌≡◌, [], Some};

use crate::source::{Source, Took};
use gd_words::List;

/// A source over bytes in memory, whose calls fail where it was told to.
#[derive(Drop)]
pub struct MemorySource {
    bytes: List<u8>,
    at: usize,
    failing: List<u64>,
    calls: u64,
    faults: u64,
}

impl MemorySource {
    /// A source of these bytes, in order. The calls with the numbers in `failing`, counted from 1, fail.
    pub fn new(bytes: List<u8>, failing: List<u64>) -> MemorySource
        ensures left { ⟦<MemorySource as Source>⟧.left result ≡ Some bytes }
        ensures faults { ⟦<MemorySource as Source>⟧.faults result ≡ 0 }
        ensures sure { failing ≡ [] → ⟦<MemorySource as Source>⟧.sure result }
    {
        MemorySource {
            bytes,
            at: 0,
            failing,
            calls: 0,
            faults: 0,
        }
    }
}

impl Source for MemorySource {
    ghost use Rattle.std.specs.Prelude.{◌≡◌, ◌≢◌, ℕ, ◌+◌, ◌-◌, ◌^◌, ◌<◌, ◌≤◌, ◌↔◌, [], Some, Contains, drop, length};
    ghost use Rattle.std.specs.Prelude.{min};
    ghost use Rattle.gd_io.specs.Faults.{HasRisen};
    ghost use Rattle.gd_io.specs.Source.{TakesInto};

    ghost left = { λ source. Some (drop source.at source.bytes) };

    ghost faults = { λ source. source.faults };

    ghost sure = { λ source. source.failing ≡ [] };

    fn take(&mut self, room: &mut [u8]) -> Took
        requires { 0 < length room.old }
        ensures bytes { TakesInto (Some (drop self.old.at self.old.bytes)) (Some (drop self.new.at self.new.bytes))
            room.new result }
        ensures later { self.old.faults ≤ self.new.faults }
        ensures cause { result ≡ Took.Failed → HasRisen self.old.faults self.new.faults }
        ensures still { self.old.failing ≡ [] → (self.new.failing ≡ []) × (self.new.faults ≡ self.old.faults) }
        ensures never { self.old.failing ≡ [] → result ≢ Took.Failed }
        ensures number { self.new.calls ≡ min (self.old.calls + 1) (2 ^ 64 - 1) }
        ensures told { result ≡ Took.Failed ↔ Contains self.old.failing self.new.calls }
        ensures kept { self.new.failing ≡ self.old.failing }
    {
        self.calls = self.calls.saturating_add(1);
        if self.failing.as_slice().contains(&self.calls) {
            self.faults = self.faults.saturating_add(1);
            return Took::Failed;
        }
        let bytes = self.bytes.as_slice();
        let at = self.at.min(bytes.len());
        let (_, rest) = bytes.split_at(at);
        let count = rest.len().min(room.len());
        if count == 0 {
            return Took::End;
        }
        let (piece, _) = rest.split_at(count);
        let (start, _) = room.split_at_mut(count);
        start.copy_from_slice(piece);
        self.at = at + count;
        Took::Got(count)
    }
}
