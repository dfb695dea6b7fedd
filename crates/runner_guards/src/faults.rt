ghost use Rattle.std.specs.Prelude.{◌^◌, ◌-◌};
ghost use Rattle.gd_io.specs.Faults.{HasRisen};

/// A count of faults rises, and stays as it is at the greatest number of 64 bits alone.
pub fn a_count_of_faults_rises()
    ensures risen { HasRisen 4 5 }
    ensures same { HasRisen 5 5 → ⊥ }
    ensures fallen { HasRisen 5 4 → ⊥ }
    ensures greatest { HasRisen (2 ^ 64 - 1) (2 ^ 64 - 1) }
    ensures one_below { HasRisen (2 ^ 64 - 2) (2 ^ 64 - 2) → ⊥ }
{}
