ghost use Rattle.std.specs.Prelude.{◌≡◌, ◌<◌, ◌≤◌, ℕ, ◌+◌, [], ◌∷◌, List};
ghost use Rattle.world_semantics.specs.process_semantics.specs.declared.point.Point.{Point};
ghost use Rattle.world_semantics.specs.process_semantics.specs.declared.point.Point.TheVariants.{Ask, AtCheckpoint};
ghost use Rattle.tal_tree.specs.declared.act.Act.{Act};
ghost use Rattle.tal_tree.specs.declared.act.Act.TheVariants.{Enter, Step, Take};
ghost use Rattle.world_semantics.specs.Kept.{own_acts};
ghost use Rattle.world_semantics.specs.Shares.{Share, covered_count, share_after_cover, share_after_act};
ghost use Rattle.world_semantics.specs.Shares.{closed, share_after_pass, share_from};
ghost use Rattle.world_semantics.specs.World.{Copy, Pair, World};

/// What a copy does anew that holds nothing adds nothing, whatever act it is: the copy only comes one further.
pub fn what_is_done_anew_adds_nothing()
    ensures { (number position : ℕ) (act : Act) (kept : List Act) → position < own_acts number kept
        → share_after_act number act kept (share_from position)
        ≡ record { share = share_from (position + 1); kept = kept } }
{}

/// At the end of the kept acts a step is kept, and a take is held, with all that is done behind it.
pub fn a_take_is_held_until_the_next_checkpoint()
    ensures step { (number process position : ℕ) (kept : List Act) → own_acts number kept ≤ position
        → share_after_act number (Step process) kept (share_from position)
        ≡ record { share = share_from (position + 1); kept = Step process ∷ kept } }
    ensures take { (number process opener position : ℕ) (kept : List Act) → own_acts number kept ≤ position
        → share_after_act number (Take process opener) kept (share_from position)
        ≡ record { share = record { position = position; held = Take process opener ∷ [] }; kept = kept } }
    ensures behind { (number position : ℕ) (act first : Act) (rest kept : List Act)
        → share_after_act number act kept (record { position = position; held = first ∷ rest })
        ≡ record { share = record { position = position; held = act ∷ first ∷ rest }; kept = kept } }
{}

/// A checkpoint that is passed first is kept behind what was held, and one that is passed anew is not kept again.
pub fn a_checkpoint_is_kept_once()
    ensures first { share_after_pass 1 (Step 1 ∷ Enter 0 ∷ []) (record { position = 1; held = Step 1 ∷ Take 1 0 ∷ [] })
        ≡ record { share = share_from 4; kept = Step 1 ∷ Step 1 ∷ Take 1 0 ∷ Step 1 ∷ Enter 0 ∷ [] } }
    ensures anew { share_after_pass 1 (Step 1 ∷ Step 1 ∷ Enter 0 ∷ []) (share_from 1)
        ≡ record { share = share_from 2; kept = Step 1 ∷ Step 1 ∷ Enter 0 ∷ [] } }
{}

/// After a checkpoint was applied, it and all before it are kept. The copy that sent it does the checkpoint anew when
/// it passes it.
pub fn an_applied_checkpoint_is_kept()
    ensures held { share_after_cover 1 AtCheckpoint (Step 1 ∷ Step 2 ∷ [])
        (record { position = 1; held = Take 1 0 ∷ [] })
        ≡ record { share = share_from 2; kept = Step 1 ∷ Take 1 0 ∷ Step 1 ∷ Step 2 ∷ [] } }
    ensures base { covered_count 1 AtCheckpoint (Step 1 ∷ Step 2 ∷ []) (record { position = 1; held = Take 1 0 ∷ [] })
        ≡ 3 }
    ensures passed { (number : ℕ) (kept : List Act) (share : Share) → own_acts number kept ≤ share.position
        → share_after_pass number (share_after_cover number AtCheckpoint kept share).kept
        (share_after_cover number AtCheckpoint kept share).share
        ≡ record {
          share = share_from (covered_count number AtCheckpoint kept share);
          kept = (share_after_cover number AtCheckpoint kept share).kept;
        } }
{}

/// A checkpoint of a copy that stands elsewhere, as one that was renewed may, keeps what the copy holds and no step.
pub fn a_checkpoint_elsewhere_keeps_no_step()
    ensures held { share_after_cover 1 Ask (Step 1 ∷ Step 2 ∷ []) (record { position = 1; held = Take 1 0 ∷ [] })
        ≡ record { share = share_from 2; kept = Take 1 0 ∷ Step 1 ∷ Step 2 ∷ [] } }
    ensures base { covered_count 1 Ask (Step 1 ∷ Step 2 ∷ []) (record { position = 1; held = Take 1 0 ∷ [] }) ≡ 2 }
{}

/// A checkpoint of a copy that is behind the kept acts keeps nothing more, and leaves the copy where it is.
pub fn a_checkpoint_of_what_is_done_anew_keeps_nothing()
    ensures kept { (number position : ℕ) (stands : Point) (kept : List Act) → position < own_acts number kept
        → share_after_cover number stands kept (share_from position)
        ≡ record { share = share_from position; kept = kept } }
    ensures base { covered_count 1 AtCheckpoint (Step 1 ∷ Step 1 ∷ Step 1 ∷ []) (share_from 1) ≡ 2 }
{}

/// What copies hold at the end is kept behind what was kept before: of each process in the order of the deck, and of
/// its first copy before its second one.
pub fn what_is_held_at_the_end_is_kept_in_order()
    ensures { (w : World) (pair : Pair) (copy : Copy) → closed (record w {
      kept = Step 2 ∷ Enter 0 ∷ [];
      processes = record pair {
        first = record copy { held = Step 0 ∷ Take 0 1 ∷ [] };
        second = record copy { held = Take 0 2 ∷ [] };
      }
          ∷ record pair { first = record copy { held = [] }; second = record copy { held = Take 1 3 ∷ [] } } ∷ [];
    })
        ≡ Enter 0 ∷ Step 2 ∷ Take 0 1 ∷ Step 0 ∷ Take 0 2 ∷ Take 1 3 ∷ [] }
{}
