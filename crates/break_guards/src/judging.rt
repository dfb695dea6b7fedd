ghost use Rattle.std.specs.Prelude.{◌≡◌, [], ◌∷◌, true, false, None, ℕ, List};
ghost use Rattle.break_guards.specs.Sites.{answered, asking, entered, replied, written};
ghost use Rattle.break_text.specs.break_runs.specs.Breaks.{is_idle_end, places_of};
ghost use Rattle.break_text.specs.unfailing_judge.specs.Order.{CanGo, GoesOn, Way, way_of};
ghost use Rattle.break_text.specs.unfailing_judge.specs.Sound.{IsApart, IsLacking};
ghost use Rattle.break_text.specs.unfailing_judge.specs.Turns.{HasTurn, KeepsTurns, is_same_actor};
ghost use Rattle.break_text.specs.unfailing_judge.specs.declared.wrong.Apart.{Apart};
ghost use Rattle.break_text.specs.unfailing_judge.specs.plain_semantics.specs.Machine.{plain_start};
ghost use Rattle.break_text.specs.schedule_runs.specs.schedule_loop.specs.declared.ran.Ending.TheVariants as ending;
ghost use Rattle.tal_tree.specs.declared.act.Act.TheVariants.{Step, Take, Enter, Print};
ghost use Rattle.tal_tree.specs.declared.act.Shown.{Shown};

/// A process does its Steps and Takes, and a terminal its Enters and Prints.
pub fn an_act_has_one_actor()
    ensures own { is_same_actor (Step 1) (Take 1 0) ≡ true }
    ensures taken { is_same_actor (Take 1 0) (Step 1) ≡ true }
    ensures other { is_same_actor (Step 1) (Step 2) ≡ false }
    ensures other_take { is_same_actor (Take 1 0) (Take 2 0) ≡ false }
    ensures terminal { is_same_actor (Enter 1) (Print 1) ≡ true }
    ensures printed { is_same_actor (Print 1) (Enter 1) ≡ true }
    ensures other_terminal { is_same_actor (Enter 1) (Print 2) ≡ false }
    ensures apart { is_same_actor (Step 1) (Enter 1) ≡ false }
    ensures printed_apart { is_same_actor (Print 1) (Take 1 0) ≡ false }
{}

/// Acts of two processes may change places, and those of one may not; and none may be missing or be added.
pub fn each_keeps_its_turns()
    ensures others { KeepsTurns (Step 0 ∷ Step 1 ∷ []) (Step 1 ∷ Step 0 ∷ []) }
    ensures own { KeepsTurns (Step 0 ∷ Take 0 1 ∷ []) (Take 0 1 ∷ Step 0 ∷ []) → ⊥ }
    ensures missing { KeepsTurns (Step 0 ∷ []) [] → ⊥ }
    ensures added { KeepsTurns [] (Print 0 ∷ []) → ⊥ }
{}

/// An act has its turn if none before it is of its process or terminal.
pub fn an_act_has_its_turn()
    ensures first { HasTurn [] (Step 0) }
    ensures others { HasTurn (Step 1 ∷ Enter 0 ∷ []) (Step 0) }
    ensures own { HasTurn (Step 1 ∷ Take 0 1 ∷ []) (Step 0) → ⊥ }
{}

/// An act can go that is possible, and shows nothing or what is to be shown next.
pub fn an_act_goes_if_it_can()
    ensures enters { CanGo asking (plain_start asking) [] (Enter 0) }
    ensures impossible { CanGo asking (plain_start asking) [] (Take 0 0) → ⊥ }
    ensures prints { CanGo asking answered (replied 5 ∷ written 6 ∷ []) (Print 0) }
    ensures other { CanGo asking answered (replied 6 ∷ replied 5 ∷ []) (Print 0) → ⊥ }
    ensures nothing { CanGo asking answered [] (Print 0) → ⊥ }
{}

/// Of the acts that are left the first goes that can, and one that has to wait stays.
pub fn the_first_goes_that_can()
    ensures goes { GoesOn asking (Enter 0) (way_of asking (Take 0 0 ∷ Enter 0 ∷ []) (replied 5 ∷ []))
        (record { plain = entered; left = Take 0 0 ∷ []; due = replied 5 ∷ [] }) }
    ensures waits { (new : Way) → GoesOn asking (Take 0 0) (way_of asking (Take 0 0 ∷ Enter 0 ∷ []) []) new → ⊥ }
    ensures own { (new : Way) → GoesOn asking (Enter 0) (way_of asking (Print 0 ∷ Enter 0 ∷ []) []) new → ⊥ }
    ensures later { (new : Way) → GoesOn asking (Enter 0) (record {
      plain = plain_start asking;
      left = Step 0 ∷ [];
      due = [];
    }) new → ⊥ }
{}

/// What the run showed next stands beside what would be shown there.
pub fn what_is_to_be_shown_stands_apart()
    ensures next { IsApart (written 5 ∷ written 6 ∷ []) (written 6 ∷ []) (Some (written 7)) (record {
      before = 1;
      shown = Some (written 6);
      due = Some (written 7);
    }) }
    ensures nothing { IsApart (written 5 ∷ []) [] (Some (written 7)) (record {
      before = 1;
      shown = None;
      due = Some (written 7);
    }) }
    ensures early { IsApart (written 5 ∷ written 6 ∷ []) (written 6 ∷ []) None (record {
      before = 0;
      shown = Some (written 6);
      due = None;
    }) → ⊥ }
    ensures all_shown { IsLacking (written 5 ∷ []) [] None }
    ensures lacks { IsLacking (written 5 ∷ []) (written 5 ∷ []) None → ⊥ }
    ensures lacks_nothing { (apart : Apart) → IsLacking (written 5 ∷ []) [] (Some apart) → ⊥ }
{}

/// Each processor is stopped before each event, at most before the first 1,000; and a run ends idle or not.
pub fn so_many_stops_are_tried()
    ensures none { places_of 0 ≡ 0 }
    ensures all { places_of 296 ≡ 296 }
    ensures most { places_of 1000 ≡ 1000 }
    ensures more { places_of 1001 ≡ 1000 }
    ensures idle { is_idle_end ending.Idle ≡ true }
    ensures cut { is_idle_end ending.Cut ≡ false }
    ensures second { (processor : ℕ) → is_idle_end (ending.Second processor) ≡ false }
    ensures lost { (process : ℕ) → is_idle_end (ending.Lost process) ≡ false }
{}
