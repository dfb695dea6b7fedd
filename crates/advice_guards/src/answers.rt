ghost use Rattle.std.specs.Prelude.{◌≡◌, [], ◌∷◌};
ghost use Rattle.path_semantics.specs.declared.reason.Reason.TheVariants.{Input, Depth};
ghost use Rattle.advice.specs.Answer.{checkpoints_of, IsAnswer, IsUnmendable};
ghost use Rattle.advice_guards.specs.Programs.{serving, two_lists, hasty, asking_five, at, checkpoints};

/// The CHECKPOINTs of a program in the order of its text.
pub fn checkpoints_are_all_in_order()
    ensures nested { checkpoints_of serving ≡ at 4 checkpoints ∷ [] }
    ensures several { checkpoints_of two_lists ≡ at 2 checkpoints ∷ at 3 checkpoints ∷ at 5 checkpoints ∷ [] }
{}

/// The answers to a server, and to a program with three CHECKPOINTs of which one has an empty list.
pub fn answers_are_told()
    ensures server { IsAnswer serving (record {
      lists = record { statement = 4; line = 14; items = 0 ∷ 5 ∷ 6 ∷ []; files = 1 ∷ [] } ∷ [];
      depths = 1 ∷ 1 ∷ [];
    }) }
    ensures several { IsAnswer two_lists (record {
      lists = record { statement = 2; line = 12; items = 0 ∷ []; files = [] }
          ∷ record { statement = 3; line = 13; items = []; files = [] }
          ∷ record { statement = 5; line = 15; items = 1 ∷ []; files = [] } ∷ [];
      depths = 1 ∷ 1 ∷ [];
    }) }
{}

/// A REPLY without a CHECKPOINT behind the READUPDATE is unmendable, and so is a fifth WRITEREAD, each with its
/// shortest path.
pub fn what_is_unmendable_is_told()
    ensures input { IsUnmendable hasty Input (1 ∷ 2 ∷ []) }
    ensures depth { IsUnmendable asking_five (Depth 1) (1 ∷ 2 ∷ 3 ∷ 4 ∷ 5 ∷ []) }
{}
