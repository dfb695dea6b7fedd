//! Links that differ, told apart.
ghost use Rattle.std.specs.Prelude.{ℕ, [], ◌∷◌};
ghost use Rattle.link_laws.specs.Effects.{IsOneMore};

/// One more stands among the others in their order; where there are as many, none is more.
pub fn one_more_is_told_apart()
    ensures between { IsOneMore {A = ℕ} 2 (1 ∷ 3 ∷ []) (1 ∷ 2 ∷ 3 ∷ []) }
    ensures last { IsOneMore {A = ℕ} 2 (1 ∷ []) (1 ∷ 2 ∷ []) }
    ensures none { IsOneMore {A = ℕ} 2 (1 ∷ 2 ∷ []) (1 ∷ 2 ∷ []) → ⊥ }
{}
