//! Runs to which the laws apply.
ghost use Rattle.std.specs.Prelude.{◌≡◌, pos, true, reverse, [], ◌∷◌, slice_get, Some};
ghost use Rattle.std.specs.Option.{option_map};
ghost use Rattle.tal_tree.specs.declared.act.Act.TheVariants.{Step, Take};
ghost use Rattle.process_semantics.specs.declared.point.Point.TheVariants.{Ended};
ghost use Rattle.process_semantics.specs.Process.{point};
ghost use Rattle.plain_semantics.specs.Machine.{IsNoneLeft, shown_by};
ghost use Rattle.world_semantics.specs.Examples.{adder_for, reply};
ghost use Rattle.world_semantics.specs.Shares.{closed};
ghost use Rattle.awaited_requests.specs.Seats.{IsLaidOut};
ghost use Rattle.accepted_sites.specs.Premises.{IsAcceptedSite};
ghost use Rattle.message_wires.specs.Idle.{is_idle};
ghost use Rattle.message_wires.specs.Runs.{IsPlayed};
ghost use Rattle.played_laws.specs.Leaving.{leaving_end, leaving_events, leaving_site};
ghost use Rattle.played_laws.specs.Takeover.{adder_end, reload_end, reload_to_the_end, takeover_to_the_end};

/// The takeover of the adder over whole messages, to its idle end: the site meets the premises, the events are played,
/// nothing is left, and what the acts of one adder show that never fails is the one reply that was printed.
pub fn a_takeover_to_its_idle_end_is_an_instance()
    ensures accepted { IsAcceptedSite (adder_for (pos 5 ∷ [])) }
    ensures laid_out { IsLaidOut (adder_for (pos 5 ∷ [])) }
    ensures played { IsPlayed (adder_for (pos 5 ∷ [])) takeover_to_the_end adder_end }
    ensures idle { is_idle adder_end ≡ true }
    ensures none { IsNoneLeft (adder_for (pos 5 ∷ [])) (closed adder_end.world) }
    ensures shown { shown_by (adder_for (pos 5 ∷ [])) (closed adder_end.world) ≡ reply 0 (pos 5) ∷ [] }
{}

/// So is a run with a reload: the adder is lost, its first processor is loaded again, its copy there gets everything,
/// and it takes over when the second processor stops. The reply is printed once, and nothing is left.
pub fn a_run_with_a_reload_is_an_instance()
    ensures played { IsPlayed (adder_for (pos 5 ∷ [])) reload_to_the_end reload_end }
    ensures idle { is_idle reload_end ≡ true }
    ensures none { IsNoneLeft (adder_for (pos 5 ∷ [])) (closed reload_end.world) }
    ensures shown { shown_by (adder_for (pos 5 ∷ [])) (closed reload_end.world) ≡ reply 0 (pos 5) ∷ [] }
{}

/// A server takes a request and stops with no CHECKPOINT: at the idle end its copy has ended, and holds the take and
/// the step after it.
pub fn a_copy_that_ended_may_hold_acts()
    ensures played { IsPlayed leaving_site leaving_events leaving_end }
    ensures idle { is_idle leaving_end ≡ true }
    ensures holds { option_map (λ pair. pair.first.held) (slice_get leaving_end.world.processes 0)
        ≡ Some (Step 0 ∷ Take 0 0 ∷ []) }
    ensures ended { option_map (λ pair. point pair.first.core.state) (slice_get leaving_end.world.processes 0)
        ≡ Some Ended }
{}
