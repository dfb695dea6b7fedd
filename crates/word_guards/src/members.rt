ghost use Rattle.std.specs.Prelude.{◌≡◌, ℕ, true, false, [], ◌∷◌};
ghost use Rattle.gd_words.specs.Members.{IsAmong, AreDistinct, is_among};

/// What stands in a list is one of its elements, at any place.
pub fn a_member_stands_anywhere()
    ensures first { IsAmong {A = ℕ} 1 (1 ∷ 2 ∷ []) }
    ensures last { IsAmong {A = ℕ} 2 (1 ∷ 2 ∷ []) }
    ensures other { IsAmong {A = ℕ} 3 (1 ∷ 2 ∷ []) → ⊥ }
    ensures asked { is_among 2 (1 ∷ 2 ∷ []) ≡ true }
    ensures asked_other { is_among 3 (1 ∷ 2 ∷ []) ≡ false }
{}

/// No number stands twice among distinct ones, not even apart.
pub fn distinct_numbers_stand_once()
    ensures distinct { AreDistinct (1 ∷ 2 ∷ 3 ∷ []) }
    ensures twice { AreDistinct (1 ∷ 2 ∷ 1 ∷ []) → ⊥ }
{}
