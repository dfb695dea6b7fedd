ghost use Rattle.std.specs.Prelude.{◌≡◌, ℕ, ◌≤◌, [], Some, length, IfOk, vec_capacity};

use crate::sink::{Gave, Sink};
use gd_words::{List, NoMemory};
use std::alloc::Global;

/// A sink in memory with room for a number of bytes, whose calls fail where it was told to.
#[derive(Drop)]
pub struct MemorySink {
    held: Vec<u8>,
    room: usize,
    failing: List<u64>,
    calls: u64,
    faults: u64,
    ghost roomy: { room ≤ vec_capacity held },
    ghost within: { length held.items ≤ room },
}

impl MemorySink {
    /// An empty sink with room for `room` bytes. The calls with the numbers in `failing`, counted from 1, fail; so does
    /// a put of more than nothing where no room is left.
    pub fn new(alloc: Global, room: usize, failing: List<u64>) -> Result<MemorySink, NoMemory>
        ensures held { IfOk result (λ sink. ⟦<MemorySink as Sink>⟧.held sink ≡ Some []) }
        ensures faults { IfOk result (λ sink. ⟦<MemorySink as Sink>⟧.faults sink ≡ 0) }
        ensures sure { IfOk result (λ sink. failing ≡ [] → ⟦<MemorySink as Sink>⟧.sure sink room) }
    {
        let held = Vec::with_capacity(alloc, room)?;
        Ok(MemorySink {
            held,
            room,
            failing,
            calls: 0,
            faults: 0,
        })
    }

    /// The bytes that it holds.
    pub fn bytes(&self) -> &[u8]
        ensures { ⟦<MemorySink as Sink>⟧.held self.now ≡ Some result.now }
    {
        self.held.as_slice()
    }
}

impl Sink for MemorySink {
    ghost use Rattle.std.specs.Prelude.{◌≡◌, ℕ, ◌+◌, ◌-◌, ◌^◌, ◌<◌, ◌≤◌, ◌↔◌, ◌⊎◌, [], Some, Contains, length, min};
    ghost use Rattle.gd_io.specs.Faults.{HasRisen};
    ghost use Rattle.gd_io.specs.Sink.{GivesTo, StaysSure};

    ghost held = { λ sink. Some sink.held.items };

    ghost faults = { λ sink. sink.faults };

    ghost sure = { λ sink n. (sink.failing ≡ []) × (length sink.held.items + n ≤ sink.room) };

    fn put(&mut self, piece: &[u8]) -> Gave
        ensures bytes { GivesTo (Some self.old.held.items) (Some self.new.held.items) piece.now result }
        ensures later { self.old.faults ≤ self.new.faults }
        ensures cause { result ≡ Gave.Failed → HasRisen self.old.faults self.new.faults }
        ensures still { (n : ℕ) → (self.old.failing ≡ [])
            × (length self.old.held.items + (length piece.now + n) ≤ self.old.room)
            → self.new.faults ≡ self.old.faults }
        ensures never { (n : ℕ) → (self.old.failing ≡ [])
            × (length self.old.held.items + (length piece.now + n) ≤ self.old.room)
            → StaysSure (λ k. (self.new.failing ≡ []) × (length self.new.held.items + k ≤ self.new.room)) piece.now n
            result }
        ensures number { self.new.calls ≡ min (self.old.calls + 1) (2 ^ 64 - 1) }
        ensures told { result ≡ Gave.Failed ↔ (Contains self.old.failing self.new.calls
            ⊎ ((length self.old.held.items ≡ self.old.room) × (0 < length piece.now))) }
        ensures kept { (self.new.failing ≡ self.old.failing) × (self.new.room ≡ self.old.room) }
    {
        self.calls = self.calls.saturating_add(1);
        let free = self.room - self.held.len();
        if self.failing.as_slice().contains(&self.calls) {
            self.faults = self.faults.saturating_add(1);
            return Gave::Failed;
        }
        if free == 0 && !piece.is_empty() {
            self.faults = self.faults.saturating_add(1);
            return Gave::Failed;
        }
        let fitting = piece.len().min(free);
        let (start, _) = piece.split_at(fitting);
        match self.held.extend_from_slice(start) {
            Ok(()) => Gave::Gone(fitting),
            Err(_) => unreachable!(),
        }
    }
}
