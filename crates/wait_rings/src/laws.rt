ghost use Rattle.std.specs.Prelude.{◌≡◌, ℕ, List, Option};
ghost use Rattle.wait_rings.specs.Rings.{rings_of};
ghost use Rattle.wait_rings.specs.Waits.{TellsRings};

/// What is told of the rings is one list, whoever waits for whom.
pub fn each_ring_is_told_once()
    ensures told { (awaited : List (Option ℕ)) → TellsRings awaited (rings_of awaited) }
    ensures only { (awaited : List (Option ℕ)) (told others : List (List ℕ)) → TellsRings awaited told
        → TellsRings awaited others → told ≡ others }
{}
