ghost use Rattle.std.specs.Prelude.{◌≡◌, ℕ, ◌+◌, ◌<◌, ◌≤◌, List, Option, length};
ghost use Rattle.gd_io.specs.Faults.{HasRisen};
ghost use Rattle.gd_io.specs.Sink.{GivesTo, StaysSure};

/// What became of a piece: this many of its first bytes are gone to the sink, or none because of a fault.
#[derive(Clone, Copy, PartialEq, Eq)]
pub enum Gave {
    Gone(usize),
    Failed,
}

/// Where bytes go.
pub trait Sink {
    /// The bytes that are held, where the sink tells them.
    ghost held: { Self → Option (List ℕ) };

    /// How many calls have failed.
    ghost faults: { Self → ℕ };

    /// That this many more bytes are taken without a fault.
    ghost sure: { Self → ℕ → Type 0 };

    /// Hands on some of the piece's first bytes. A sink that takes none of a piece that isn't empty counts a fault.
    fn put(&mut self, piece: &[u8]) -> Gave
        ensures bytes { GivesTo (held self.old) (held self.new) piece.now result }
        ensures later { faults self.old ≤ faults self.new }
        ensures cause { result ≡ Gave.Failed → HasRisen (faults self.old) (faults self.new) }
        ensures still { (n : ℕ) → sure self.old (length piece.now + n) → faults self.new ≡ faults self.old }
        ensures never { (n : ℕ) → sure self.old (length piece.now + n) → StaysSure (sure self.new) piece.now n result };
}
