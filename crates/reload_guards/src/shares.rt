ghost use Rattle.std.specs.Prelude.{◌≡◌, [], ◌∷◌};
ghost use Rattle.process_semantics.specs.declared.point.Point.TheVariants.{AtCheckpoint, Inner};
ghost use Rattle.tal_tree.specs.declared.act.Act.TheVariants.{Step, Take};
ghost use Rattle.world_semantics.specs.Shares.{covered_count, share_after_cover};
ghost use Rattle.reload_guards.specs.Worlds.{three_kept};

/// A checkpoint of a copy that has done all kept acts covers them, what the copy holds, and its act at the checkpoint
/// if it stands at one, before which it then stands.
pub fn a_checkpoint_covers_what_is_held()
    ensures at_checkpoint { covered_count 0 AtCheckpoint three_kept
        (record { position = 3; held = Step 0 ∷ Take 0 0 ∷ [] })
        ≡ 6 }
    ensures elsewhere { covered_count 0 Inner three_kept (record { position = 3; held = Step 0 ∷ Take 0 0 ∷ [] }) ≡ 5 }
    ensures kept { (share_after_cover 0 Inner three_kept (record { position = 3; held = Take 0 0 ∷ [] })).kept
        ≡ Take 0 0 ∷ three_kept }
    ensures act { (share_after_cover 0 AtCheckpoint three_kept (record { position = 3; held = Take 0 0 ∷ [] })).kept
        ≡ Step 0 ∷ Take 0 0 ∷ three_kept }
    ensures stands { (share_after_cover 0 AtCheckpoint three_kept (record { position = 3; held = Take 0 0 ∷ [] })).share
        ≡ record { position = 4; held = [] } }
{}

/// Of a copy that is behind them it covers what the copy has done, and its act at the checkpoint; nothing is kept.
pub fn a_checkpoint_of_a_copy_that_is_behind_covers_what_it_did()
    ensures at_checkpoint { covered_count 0 AtCheckpoint three_kept (record { position = 1; held = [] }) ≡ 2 }
    ensures elsewhere { covered_count 0 Inner three_kept (record { position = 1; held = [] }) ≡ 1 }
    ensures kept { (share_after_cover 0 AtCheckpoint three_kept (record { position = 1; held = [] })).kept
        ≡ three_kept }
    ensures stands { (share_after_cover 0 AtCheckpoint three_kept (record { position = 1; held = [] })).share
        ≡ record { position = 1; held = [] } }
{}
