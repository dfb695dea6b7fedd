ghost use Rattle.std.specs.Prelude.{◌≡◌, pos, [], ◌∷◌, reverse};
ghost use Rattle.plain_semantics.specs.Machine.{IsPossible, shown_by};
ghost use Rattle.world_semantics.specs.Examples.{adder_for, disc_site, takeover_events, takeover_acts, takeover_shown};
ghost use Rattle.world_semantics.specs.Examples.{reload_events, renewal_events, lost_take_events, lost_take_acts};
ghost use Rattle.world_semantics.specs.Examples.{lost_take_shown, disc_events, disc_acts, disc_shown, bank_site};
ghost use Rattle.world_semantics.specs.Examples.{repeat_events, repeat_acts, repeat_shown, echo_site, ahead_events};
ghost use Rattle.world_semantics.specs.Examples.{ahead_acts, CanKeep, CanLeave};
ghost use Rattle.checkpoint_image.specs.declared.receive.RequestStanding.TheVariants.{Ahead};
ghost use Rattle.world_semantics.specs.declared.role.Role.TheVariants.{Acting};

/// The adder's first copy is lost when it has answered. The second takes over behind the checkpoint and answers anew,
/// and the acts that are kept are those of one process that doesn't fail.
pub fn an_adder_is_taken_over()
    ensures run { CanKeep (adder_for (pos 5 ∷ [])) takeover_events takeover_acts takeover_shown }
    ensures possible { IsPossible (adder_for (pos 5 ∷ [])) takeover_acts }
    ensures shown { shown_by (adder_for (pos 5 ∷ [])) takeover_acts ≡ reverse takeover_shown }
{}

/// The adder's second copy takes over, and before it does anything the first processor is loaded again: the copy there
/// gets all that the second one has. Then the second processor stops, and the first copy takes over and answers anew:
/// the acts that are kept are the same.
pub fn an_adder_is_taken_over_twice()
    ensures run { CanKeep (adder_for (pos 5 ∷ [])) reload_events takeover_acts takeover_shown }
    ensures renewal { CanKeep (adder_for (pos 5 ∷ [])) renewal_events takeover_acts takeover_shown }
{}

/// A take that is lost with its processor leaves nothing: the copy that takes over takes another request in its place.
pub fn a_lost_take_is_replaced()
    ensures run { CanKeep (adder_for (pos 5 ∷ pos 7 ∷ [])) lost_take_events lost_take_acts lost_take_shown }
    ensures possible { IsPossible (adder_for (pos 5 ∷ pos 7 ∷ [])) lost_take_acts }
    ensures shown { shown_by (adder_for (pos 5 ∷ pos 7 ∷ [])) lost_take_acts ≡ reverse lost_take_shown }
{}

/// A disc that is taken over after its write finds it done: the write is shown once.
pub fn a_disc_finds_its_write_done()
    ensures run { CanKeep disc_site disc_events disc_acts disc_shown }
    ensures possible { IsPossible disc_site disc_acts }
    ensures shown { shown_by disc_site disc_acts ≡ reverse disc_shown }
{}

/// A bank that is taken over while it awaits a disc asks again, and gets the reply that the disc keeps: nothing is
/// written twice.
pub fn a_repeated_request_is_answered_once()
    ensures run { CanKeep bank_site repeat_events repeat_acts repeat_shown }
    ensures possible { IsPossible bank_site repeat_acts }
    ensures shown { shown_by bank_site repeat_acts ≡ reverse repeat_shown }
{}

/// A request can wait ahead of the next: an echo that answers without a checkpoint is lost, and with it that it took
/// the first request. The second request waits at the copy that takes over, for which the first is the next one, and no
/// process that doesn't fail has the acts that are kept.
pub fn a_request_can_wait_ahead()
    ensures run { CanLeave echo_site ahead_events ahead_acts (Acting ∷ []) ((Ahead ∷ []) ∷ []) }
    ensures impossible { IsPossible echo_site ahead_acts → ⊥ }
{}
