ghost use Rattle.std.specs.Prelude.{◌≡◌, [], ◌∷◌, Some, None};
ghost use Rattle.wait_rings.specs.Rings.{rings_of};
ghost use Rattle.wait_rings.specs.Waits.{TellsRings};

/// Those that wait for each other are a ring, told once, from the lowest number on in the order of the waits.
pub fn those_that_wait_for_each_other_are_a_ring()
    ensures two { rings_of (Some 1 ∷ Some 0 ∷ []) ≡ (0 ∷ 1 ∷ []) ∷ [] }
    ensures itself { rings_of (Some 0 ∷ []) ≡ (0 ∷ []) ∷ [] }
    ensures three { rings_of (Some 2 ∷ Some 0 ∷ Some 1 ∷ []) ≡ (0 ∷ 2 ∷ 1 ∷ []) ∷ [] }
    ensures both { rings_of (Some 3 ∷ Some 2 ∷ Some 1 ∷ Some 0 ∷ []) ≡ (0 ∷ 3 ∷ []) ∷ (1 ∷ 2 ∷ []) ∷ [] }
{}

/// Who waits for one of a ring and isn't awaited, who awaits nobody, and who awaits one that does, is in none.
pub fn others_are_in_none()
    ensures behind { rings_of (Some 1 ∷ Some 2 ∷ Some 1 ∷ []) ≡ (1 ∷ 2 ∷ []) ∷ [] }
    ensures nobody { rings_of (Some 1 ∷ None ∷ []) ≡ [] }
    ensures absent { rings_of (Some 7 ∷ []) ≡ [] }
{}

/// Who leaves a ring out, tells one twice, or tells one from another than its lowest on doesn't tell what rings there
/// are, nor who tells of a ring where nobody closes it.
pub fn no_other_list_tells_the_rings()
    ensures left_out { TellsRings (Some 1 ∷ Some 0 ∷ []) [] → ⊥ }
    ensures twice { TellsRings (Some 1 ∷ Some 0 ∷ []) ((0 ∷ 1 ∷ []) ∷ (0 ∷ 1 ∷ []) ∷ []) → ⊥ }
    ensures turned { TellsRings (Some 1 ∷ Some 0 ∷ []) ((1 ∷ 0 ∷ []) ∷ []) → ⊥ }
    ensures no_ring { TellsRings (Some 1 ∷ None ∷ []) ((0 ∷ 1 ∷ []) ∷ []) → ⊥ }
{}
