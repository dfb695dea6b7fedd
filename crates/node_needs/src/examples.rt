//! The needs of nodes in worked runs.
ghost use Rattle.std.specs.Prelude.{◌≡◌, [], ◌∷◌, ◌++◌};
ghost use Rattle.schedule.specs.declared.event.Event.TheVariants as event;
ghost use Rattle.message_wires.specs.world_semantics.specs.Examples.{delivery, run};
ghost use Rattle.message_wires.specs.Examples.{up_to_checkpoint};
ghost use Rattle.message_wires.specs.Tiers.{before_stop, tiers};
ghost use Rattle.standing_links.specs.Needs.{nothing};
ghost use Rattle.node_needs.specs.Examples.{awaited_alone, both_serve, in_hand_alone, needs_after, until_answered};
ghost use Rattle.node_needs.specs.Examples.{until_it_came, until_taken_over, waiting_alone};
ghost use Rattle.node_needs.specs.NodeNeeds.{needs_at};

/// A request is awaited at the terminals' node from its entry on. It waits where it came, is in hand where it was
/// taken, and is neither once it was answered.
pub fn a_request_is_waited_for_and_served()
    ensures nowhere { needs_after [] 0 ≡ nothing }
    ensures entered { needs_after (event.Enter 0 ∷ []) 16 ≡ awaited_alone }
    ensures not_yet { needs_after (event.Enter 0 ∷ []) 0 ≡ nothing }
    ensures came { needs_after until_it_came 0 ≡ waiting_alone }
    ensures elsewhere { needs_after until_it_came 1 ≡ nothing }
    ensures taken { needs_after (until_it_came ++ run ∷ []) 0 ≡ in_hand_alone }
    ensures watched { needs_after (up_to_checkpoint ++ delivery ∷ []) 1 ≡ nothing }
    ensures answered { needs_after until_answered 0 ≡ nothing }
    ensures awaited { needs_after until_answered 16 ≡ awaited_alone }
{}

/// Where the first copy is lost with its processor, nothing is to be done there, and the copy that takes over behind
/// the checkpoint has the request in hand.
pub fn a_takeover_has_the_request_in_hand()
    ensures before { needs_after until_taken_over 1 ≡ in_hand_alone }
    ensures lost { needs_after until_taken_over 0 ≡ nothing }
    ensures gone { needs_after (until_it_came ++ event.Fail 0 ∷ []) 0 ≡ nothing }
    ensures awaited { needs_after until_taken_over 16 ≡ awaited_alone }
{}

/// A front that asks the adder awaits the reply where it acts, and both have their requests in hand there. Nothing is
/// to be done where their copies watch.
pub fn a_front_awaits_what_it_asked()
    ensures acting { needs_at tiers (before_stop 12).world 0 ≡ both_serve }
    ensures watching { needs_at tiers (before_stop 12).world 1 ≡ nothing }
{}
