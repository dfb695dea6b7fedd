ghost use Rattle.std.specs.Prelude.{◌≡◌, ℕ, List, [], ◌∷◌};
ghost use Rattle.gd_words.specs.declared.device.DeviceCall.TheVariants.{Nothing};
ghost use Rattle.tal_tree.specs.declared.site.ProcessSpec.{ProcessSpec};
ghost use Rattle.tal_tree.specs.declared.site.Site.{Site};
ghost use Rattle.world_semantics.specs.declared.role.Role.TheVariants.{Blank, Watching};
ghost use Rattle.world_semantics.specs.Core.{Deed, Went, Checkpointed, Took, Asked, Got, Answered, Acted};
ghost use Rattle.world_semantics.specs.World.{Pair, Down, boot, pair_at_boot};
ghost use Rattle.plain_histories.specs.Ledgers.{Ledger, empty_ledger};
ghost use Rattle.takeover_laws.specs.Invariant.{AreRepeatable, IsLed, IsSound, Invariant, exchanged};

/// At the beginning each process is sound, led by its first copy, and the world keeps the invariant.
pub fn the_beginning_is_sound()
    ensures process { (site : Site) (number : ℕ) (spec : ProcessSpec)
        → IsSound site empty_ledger 0 number spec (pair_at_boot site number spec) }
    ensures world { (site : Site) → Invariant site 0 (boot site) }
{}

/// A copy that watches doesn't lead, whichever of the two it is, nor does one that is blank: the other one does.
pub fn a_copy_that_watches_does_not_lead()
    ensures neither { (site : Site) (ledger : Ledger) (number : ℕ) (spec : ProcessSpec) (deeds : List Deed)
        (pair : Pair) → pair.first.role ≡ Watching
        → pair.second.role ≡ Watching → IsLed site ledger number spec deeds pair → ⊥ }
    ensures blank { (site : Site) (ledger : Ledger) (number : ℕ) (spec : ProcessSpec) (deeds : List Deed) (pair : Pair)
        → pair.first.role ≡ Blank → pair.second.role ≡ Blank → IsLed site ledger number spec deeds pair → ⊥ }
    ensures either { (site : Site) (ledger : Ledger) (number : ℕ) (spec : ProcessSpec) (deeds : List Deed) (pair : Pair)
        → IsLed site ledger number spec deeds pair → IsLed site ledger number spec deeds (exchanged pair) }
{}

/// Neither a checkpoint nor a take is done anew after a takeover; all else may be.
pub fn deeds_are_done_anew()
    ensures others { AreRepeatable (Went ∷ Asked 0 [] ∷ Got 0 [] ∷ Answered 0 [] ∷ Acted Nothing [] ∷ []) }
    ensures checkpoint { AreRepeatable (Went ∷ Checkpointed ∷ []) → ⊥ }
    ensures take { AreRepeatable (Went ∷ Took 0 [] ∷ []) → ⊥ }
{}
