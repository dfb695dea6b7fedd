ghost use Rattle.std.specs.Prelude.{◌≡◌, ◌≢◌, ℕ, ◌<◌, ◌≤◌, List, Option, length};
ghost use Rattle.gd_io.specs.Faults.{HasRisen};
ghost use Rattle.gd_io.specs.Source.{TakesInto};

/// What a call for bytes gave: this many at the start of the room, none because the end is reached, or none because of
/// a fault.
#[derive(Clone, Copy, PartialEq, Eq)]
pub enum Took {
    Got(usize),
    End,
    Failed,
}

/// Where bytes come from.
pub trait Source {
    /// The bytes that are left, where the source tells them.
    ghost left: { Self → Option (List ℕ) };

    /// How many calls have failed.
    ghost faults: { Self → ℕ };

    /// That no call fails from here on.
    ghost sure: { Self → Type 0 };

    /// Takes some of the next bytes into the start of the room.
    fn take(&mut self, room: &mut [u8]) -> Took
        requires { 0 < length room.old }
        ensures bytes { TakesInto (left self.old) (left self.new) room.new result }
        ensures later { faults self.old ≤ faults self.new }
        ensures cause { result ≡ Took.Failed → HasRisen (faults self.old) (faults self.new) }
        ensures still { sure self.old → sure self.new × (faults self.new ≡ faults self.old) }
        ensures never { sure self.old → result ≢ Took.Failed };
}
