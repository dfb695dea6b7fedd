ghost use Rattle.std.specs.Prelude.{◌≡◌, ℕ, [], ◌∷◌};
ghost use Rattle.run_table.specs.Counts.{row_of};
ghost use Rattle.run_table.specs.declared.rows.RunKind.TheVariants as kind;
ghost use Rattle.schedule_loop.specs.declared.ran.Ending.TheVariants.{Idle, Cut, Lost, Second};
ghost use Rattle.schedule_sweeps.specs.Sweeps.{kind_of};

/// A row counts all runs, and those of each kind.
pub fn a_row_counts_each_kind()
    ensures none { row_of [] ≡ record { runs = 0; idle = 0; cut = 0; second = 0 } }
    ensures all { row_of (kind.Second ∷ kind.Idle ∷ kind.Cut ∷ kind.Second ∷ kind.Idle ∷ kind.Second ∷ [])
        ≡ record { runs = 6; idle = 2; cut = 1; second = 3 } }
{}

/// The kind of a run is how it ended, whichever second processor would have stopped. One that would have lost a disc
/// was cut.
pub fn an_ending_has_its_kind()
    ensures idle { kind_of Idle ≡ kind.Idle }
    ensures cut { kind_of Cut ≡ kind.Cut }
    ensures second { (processor : ℕ) → kind_of (Second processor) ≡ kind.Second }
    ensures lost { (process : ℕ) → kind_of (Lost process) ≡ kind.Cut }
{}
