ghost use Rattle.std.specs.Prelude.{[], ◌∷◌, List, ℕ};
ghost use Rattle.path_semantics.specs.declared.reason.Reason.TheVariants.{Input, Depth};
ghost use Rattle.path_semantics.specs.Break.{Breaks};
ghost use Rattle.advice.specs.Advice.{IsLeastDepth};
ghost use Rattle.advice.specs.Choice.{deepest};
ghost use Rattle.advice_guards.specs.Programs.{two_lists, asking_once, asking_twice, asking_four, asking_five, hasty};

/// A file that isn't asked has depth 1, and so has one that is asked once between CHECKPOINTs; with two WRITEREADs it
/// has 2, with four 4. How many replies the program keeps plays no part.
pub fn a_depth_is_as_many_as_are_asked()
    ensures unasked { IsLeastDepth two_lists 1 1 }
    ensures other { IsLeastDepth asking_twice 0 1 }
    ensures once { IsLeastDepth asking_once 1 1 }
    ensures twice { IsLeastDepth asking_twice 1 2 }
    ensures four { IsLeastDepth asking_four 1 4 }
{}

/// With the greatest depths four WRITEREADs break on no path, and five do; and a REPLY without a CHECKPOINT behind the
/// READUPDATE breaks with whatever depths.
pub fn five_asks_are_beyond_every_depth()
    ensures four { (path : List ℕ) → Breaks (deepest asking_four) path (Depth 1) → ⊥ }
    ensures five { Breaks (deepest asking_five) (1 ∷ 2 ∷ 3 ∷ 4 ∷ 5 ∷ []) (Depth 1) }
    ensures input { Breaks (deepest hasty) (1 ∷ 2 ∷ []) Input }
{}
