ghost use Rattle.std.specs.Prelude.{◌≡◌, pos, [], ◌∷◌};
ghost use Rattle.gd_words.specs.declared.device.DeviceCall.TheVariants.{Nothing};
ghost use Rattle.checkpoint_laws.specs.world_semantics.specs.Core.{Went, Checkpointed, Took, Asked, Got, Answered};
ghost use Rattle.checkpoint_laws.specs.world_semantics.specs.Core.{Acted};
ghost use Rattle.discipline_laws.specs.Careless.{process_of, site_of, hasty, forgetful};
ghost use Rattle.discipline_laws.specs.Disciplined.{AreUncheckpointed, AreInner, AreIdle, IsDisciplined};

/// A program that replies without a CHECKPOINT after it took the request doesn't keep the discipline, nor does one
/// whose CHECKPOINT doesn't name all that the request changed.
pub fn a_careless_program_is_not_disciplined()
    ensures hasty { IsDisciplined (site_of hasty) 0 (process_of hasty) → ⊥ }
    ensures forgetful { IsDisciplined (site_of forgetful) 0 (process_of forgetful) → ⊥ }
{}

/// What may be done since a checkpoint, after a take, and between two calls of a device.
pub fn deeds_are_told_apart()
    ensures uncheckpointed { AreUncheckpointed (Went ∷ Took 0 [] ∷ Asked 0 [] ∷ Got 0 [] ∷ Answered 0 [] ∷ Acted
        Nothing []
        ∷ []) }
    ensures checkpointed { AreUncheckpointed (Went ∷ Checkpointed ∷ []) → ⊥ }
    ensures inner { AreInner (Went ∷ Went ∷ []) }
    ensures not_inner { AreInner (Went ∷ Got 0 [] ∷ []) → ⊥ }
    ensures idle { AreIdle (Went ∷ Checkpointed ∷ Took 0 [] ∷ Answered 0 [] ∷ []) }
    ensures not_idle { AreIdle (Went ∷ Acted Nothing [] ∷ []) → ⊥ }
{}
