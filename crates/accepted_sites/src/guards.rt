ghost use Rattle.std.specs.Prelude.{◌≡◌, pos, List, [], ◌∷◌, ℤ, reverse};
ghost use Rattle.plain_semantics.specs.Machine.{IsPossible, shown_by};
ghost use Rattle.world_semantics.specs.Examples.{adder, adder_for, takeover_events, lost_take_events, bank, bank_site};
ghost use Rattle.world_semantics.specs.Examples.{repeat_events, disc_site, disc_events, echo_site, ahead_events};
ghost use Rattle.world_semantics.specs.Examples.{ahead_acts};
ghost use Rattle.world_semantics.specs.Follows.{IsRun};
ghost use Rattle.world_semantics.specs.Kept.{acts_of};
ghost use Rattle.world_semantics.specs.World.{World};
ghost use Rattle.path_semantics.specs.Accepted.{IsAccepted};
ghost use Rattle.tal_laws.specs.tal_reader.specs.Reads.{Reads};
ghost use Rattle.accepted_sites.specs.Premises.{IsAcceptedSite};
ghost use Rattle.accepted_sites.specs.Sites.{asked_with};
ghost use Rattle.accepted_sites.specs.Texts.{adder_text, bank_text};

/// A site of a disc meets the premises, and one whose terminal has a request of more than 16 words doesn't.
pub fn premises_are_told_apart()
    ensures disc { IsAcceptedSite disc_site }
    ensures most { IsAcceptedSite (asked_with 16) }
    ensures long { IsAcceptedSite (asked_with 17) → ⊥ }
{}

/// The run in which a disc takes over and finds its write done is one of those of which the law speaks.
pub fn a_run_of_a_disc_is_an_instance()
    ensures run { (w : World) × IsRun disc_site disc_events w }
    ensures possible { (w : World) → IsRun disc_site disc_events w → IsPossible disc_site (acts_of w) }
    ensures shown { (w : World) → IsRun disc_site disc_events w → shown_by disc_site (acts_of w) ≡ reverse w.shown }
{}

/// The adder and the bank of the worked runs are what texts read as, and are accepted; so their sites meet the
/// premises, that of the adder with whatever words its terminals send.
pub fn sites_of_pairs_meet_the_premises()
    ensures adder_read { Reads adder_text adder }
    ensures adder_accepted { IsAccepted adder }
    ensures adders { (words : List ℤ) → IsAcceptedSite (adder_for words) }
    ensures bank_read { Reads bank_text bank }
    ensures bank_accepted { IsAccepted bank }
    ensures banks { IsAcceptedSite bank_site }
{}

/// The run in which the adder's first copy is lost when it has answered, and the second takes over, is one of those of
/// which the law speaks.
pub fn a_takeover_of_the_adder_is_an_instance()
    ensures run { (w : World) × IsRun (adder_for (pos 5 ∷ [])) takeover_events w }
    ensures possible { (w : World) → IsRun (adder_for (pos 5 ∷ [])) takeover_events w
        → IsPossible (adder_for (pos 5 ∷ [])) (acts_of w) }
    ensures shown { (w : World) → IsRun (adder_for (pos 5 ∷ [])) takeover_events w
        → shown_by (adder_for (pos 5 ∷ [])) (acts_of w) ≡ reverse w.shown }
{}

/// So is the run in which a take of the adder is lost with its processor.
pub fn a_lost_take_of_the_adder_is_an_instance()
    ensures run { (w : World) × IsRun (adder_for (pos 5 ∷ pos 7 ∷ [])) lost_take_events w }
    ensures possible { (w : World) → IsRun (adder_for (pos 5 ∷ pos 7 ∷ [])) lost_take_events w
        → IsPossible (adder_for (pos 5 ∷ pos 7 ∷ [])) (acts_of w) }
    ensures shown { (w : World) → IsRun (adder_for (pos 5 ∷ pos 7 ∷ [])) lost_take_events w
        → shown_by (adder_for (pos 5 ∷ pos 7 ∷ [])) (acts_of w) ≡ reverse w.shown }
{}

/// So is the run in which the bank is taken over while it awaits a disc, and asks again.
pub fn a_repeated_request_of_the_bank_is_an_instance()
    ensures run { (w : World) × IsRun bank_site repeat_events w }
    ensures possible { (w : World) → IsRun bank_site repeat_events w → IsPossible bank_site (acts_of w) }
    ensures shown { (w : World) → IsRun bank_site repeat_events w → shown_by bank_site (acts_of w) ≡ reverse w.shown }
{}

/// Without the premises the law is false: a program that answers with no checkpoint after its take has a run that keeps
/// acts which aren't possible, so it isn't accepted.
pub fn a_hasty_site_is_not_accepted()
    ensures run { (w : World) × IsRun echo_site ahead_events w × (acts_of w ≡ ahead_acts) }
    ensures impossible { IsPossible echo_site ahead_acts → ⊥ }
    ensures refused { IsAcceptedSite echo_site → ⊥ }
{}
