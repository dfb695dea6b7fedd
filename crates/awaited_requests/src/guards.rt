ghost use Rattle.std.specs.Prelude.{◌≡◌, ℕ, false, List, [], ◌∷◌};
ghost use Rattle.tal_tree.specs.declared.site.Who.{Who};
ghost use Rattle.tal_tree.specs.declared.site.Who.TheVariants.{Terminal};
ghost use Rattle.world_semantics.specs.checkpoint_image.specs.declared.receive.RequestStanding.TheVariants.{Old};
ghost use Rattle.world_semantics.specs.checkpoint_image.specs.Receive.{standing_at};
ghost use Rattle.takeover_laws.specs.process_histories.specs.Served.{disc_site};
ghost use Rattle.world_semantics.specs.Core.{Core};
ghost use Rattle.world_semantics.specs.World.{terminal_node, boot};
ghost use Rattle.world_semantics.specs.declared.which.Which.TheVariants.{Second};
ghost use Rattle.letters.specs.Posts.{post_at_boot};
ghost use Rattle.awaited_requests.specs.Awaited.{IsAwaited, StandsThere};
ghost use Rattle.awaited_requests.specs.Examples.{both_answered, site_with, disc_pair, holding, entered, entered_with};
ghost use Rattle.awaited_requests.specs.Examples.{letter_to};
ghost use Rattle.awaited_requests.specs.Seats.{IsLaidOut, IsSeated};
ghost use Rattle.awaited_requests.specs.Served.{AreServed};

/// Where a server that keeps two replies answered two requests, either may be asked again and the next one may come.
/// With one reply less the first one is old.
pub fn one_reply_less_is_too_few()
    ensures first { (core : Core) → core.receive ≡ both_answered 2 → StandsThere core 0 1 }
    ensures second { (core : Core) → core.receive ≡ both_answered 2 → StandsThere core 0 2 }
    ensures next { (core : Core) → core.receive ≡ both_answered 2 → StandsThere core 0 3 }
    ensures later { (core : Core) → core.receive ≡ both_answered 2 → StandsThere core 0 4 → ⊥ }
    ensures less { (core : Core) → core.receive ≡ both_answered 1 → StandsThere core 0 1 → ⊥ }
    ensures old { standing_at (both_answered 1) 0 1 ≡ Old }
    ensures last { (core : Core) → core.receive ≡ both_answered 1 → StandsThere core 0 2 }
{}

/// A site is laid out where each process is in two processors that are there, of at most 16.
pub fn layouts_are_told_apart()
    ensures most { IsLaidOut (site_with 16 0 15) }
    ensures many { IsLaidOut (site_with 17 0 15) → ⊥ }
    ensures same { IsLaidOut (site_with 2 1 1) → ⊥ }
    ensures elsewhere { IsLaidOut (site_with 2 0 2) → ⊥ }
{}

/// A disc is seated at its beginning; it isn't where the copy that watches leads or holds acts, where its node has
/// marked the other copy's processor, or where a processor isn't there.
pub fn seats_are_told_apart()
    ensures beginning { IsSeated (false ∷ false ∷ []) [] disc_pair }
    ensures leads { IsSeated (false ∷ false ∷ []) [] (record disc_pair { led = Second }) → ⊥ }
    ensures holds { IsSeated (false ∷ false ∷ []) [] holding → ⊥ }
    ensures told { IsSeated (false ∷ false ∷ []) (record { node = 1; down = 0 } ∷ []) disc_pair → ⊥ }
    ensures other_way { IsSeated (false ∷ false ∷ []) (record { node = 0; down = 1 } ∷ []) disc_pair }
    ensures missing { IsSeated (false ∷ []) [] disc_pair → ⊥ }
{}

/// A terminal that has entered a request awaits its reply at its node, and nothing is awaited before.
pub fn a_terminal_awaits_what_it_entered()
    ensures none { (asker : ℕ) (one : Who) (n : ℕ) → IsAwaited disc_site (boot disc_site) asker one n → ⊥ }
    ensures one { IsAwaited disc_site entered terminal_node (Terminal 0) 1 }
    ensures other { IsAwaited disc_site entered terminal_node (Terminal 0) 2 → ⊥ }
{}

/// A request that is awaited and neither owed to the copy to which it goes nor waiting there isn't served.
pub fn a_lost_request_is_not_served()
    ensures owed { AreServed disc_site (entered_with (letter_to 0 ∷ [])) }
    ensures elsewhere { AreServed disc_site (entered_with (letter_to 1 ∷ [])) → ⊥ }
    ensures lost { AreServed disc_site (entered_with []) → ⊥ }
    ensures beginning { AreServed disc_site (post_at_boot disc_site) }
{}
