ghost use Rattle.std.specs.Prelude.{◌≡◌, [], ◌∷◌};
ghost use Rattle.advice.specs.Answer.{choice_of, IsAscending};
ghost use Rattle.advice.specs.Choice.{with_choice, deepest, IsChoice, IsContained};
ghost use Rattle.advice_guards.specs.Programs.{serving, serving_with};

/// A choice changes the lists of CHECKPOINTs at any level, and the depths, the first file's by the first depth; and the
/// greatest depths are 4 for each file.
pub fn a_choice_changes_lists_and_depths()
    ensures chosen { with_choice serving (choice_of
        (record {
          lists = record { statement = 4; line = 0; items = 0 ∷ 6 ∷ []; files = 1 ∷ [] } ∷ [];
          depths = 1 ∷ 3 ∷ [];
        }))
        ≡ serving_with (0 ∷ 6 ∷ []) (1 ∷ []) 1 3 }
    ensures own { with_choice serving (choice_of (record { lists = []; depths = 1 ∷ 2 ∷ [] })) ≡ serving }
    ensures deep { deepest serving ≡ serving_with [] [] 4 4 }
{}

/// An answer as a choice: the list of a statement, none where it has none, and depth 1 where it has none.
pub fn an_answer_is_a_choice()
    ensures items { (choice_of (record {
      lists = record { statement = 2; line = 5; items = 3 ∷ []; files = 1 ∷ [] }
          ∷ record { statement = 4; line = 6; items = 7 ∷ []; files = 2 ∷ [] } ∷ [];
      depths =
          3 ∷ [];
    })).items 4 ≡ 7 ∷ [] }
    ensures files { (choice_of (record {
      lists = record { statement = 2; line = 5; items = 3 ∷ []; files = 1 ∷ [] }
          ∷ record { statement = 4; line = 6; items = 7 ∷ []; files = 2 ∷ [] } ∷ [];
      depths =
          3 ∷ [];
    })).files 2 ≡ 1 ∷ [] }
    ensures none { (choice_of (record {
      lists = record { statement = 2; line = 5; items = 3 ∷ []; files = 1 ∷ [] }
          ∷ [];
      depths = 3 ∷ [];
    })).items 5 ≡ [] }
    ensures depth { (choice_of (record { lists = []; depths = 3 ∷ [] })).depth 0 ≡ 3 }
    ensures missing { (choice_of (record { lists = []; depths = 3 ∷ [] })).depth 1 ≡ 1 }
{}

/// A file's variable can't be named as a global, nor `$RECEIVE` as a file; no depth is 0 or more than 4, and that of
/// `$RECEIVE` is 1.
pub fn not_all_may_be_chosen()
    ensures variable { IsChoice serving (record { items = λ number. 3 ∷ []; files = λ number. []; depth = λ file. 1 })
        → ⊥ }
    ensures file { IsChoice serving (record { items = λ number. []; files = λ number. 0 ∷ []; depth = λ file. 1 }) → ⊥ }
    ensures low { IsChoice serving (record { items = λ number. []; files = λ number. []; depth = λ file. 0 }) → ⊥ }
    ensures high { IsChoice serving (choice_of (record { lists = []; depths = 1 ∷ 5 ∷ [] })) → ⊥ }
    ensures receive { IsChoice serving (choice_of (record { lists = []; depths = 2 ∷ 2 ∷ [] })) → ⊥ }
{}

/// A choice that names more, or keeps more replies, isn't contained in one that names less or keeps fewer.
pub fn more_is_not_contained()
    ensures items { IsContained serving (record
        { items = λ number. 0 ∷ 1 ∷ []; files = λ number. []; depth = λ file. 1 })
        (record { items = λ number. 1 ∷ []; files = λ number. []; depth = λ file. 1 }) → ⊥ }
    ensures files { IsContained serving (record { items = λ number. []; files = λ number. 1 ∷ []; depth = λ file. 1 })
        (record { items = λ number. []; files = λ number. []; depth = λ file. 1 }) → ⊥ }
    ensures depths { IsContained serving (record { items = λ number. []; files = λ number. []; depth = λ file. 2 })
        (record { items = λ number. []; files = λ number. []; depth = λ file. 1 }) → ⊥ }
{}

/// In order means that each number is more than the one before it.
pub fn in_order_is_without_repeats()
    ensures ordered { IsAscending (0 ∷ 2 ∷ 3 ∷ []) }
    ensures repeated { IsAscending (1 ∷ 1 ∷ []) → ⊥ }
    ensures turned { IsAscending (0 ∷ 3 ∷ 2 ∷ []) → ⊥ }
{}
