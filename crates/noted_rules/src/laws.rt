ghost use Rattle.std.specs.Prelude.{◌≡◌, ℕ};
ghost use Rattle.machine_states.specs.States.{Makes, Skips};
ghost use Rattle.packet_runs.specs.site_machine.specs.packet_wires.specs.Play.{Packeted, play};
ghost use Rattle.schedule.specs.declared.event.Event.{Event};
ghost use Rattle.noted_rules.specs.Noted.{Noting, noted_play, with_notes};

/// What an event makes of the machine it makes of the machine with notes: the same state, and the notes gone on; and an
/// event that can't be done isn't noted.
pub fn an_event_makes_the_same_with_notes()
    ensures made { (noting : Noting ℕ) (notes : ℕ) (s next : Packeted) (event : Event) → play s event ≡ Makes next
        → noted_play noting (with_notes notes s) event ≡ Makes (with_notes (noting event s next notes) next) }
    ensures skipped { (noting : Noting ℕ) (notes : ℕ) (s : Packeted) (event : Event) → play s event ≡ Skips
        → noted_play noting (with_notes notes s) event ≡ Skips }
{}
