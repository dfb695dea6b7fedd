ghost use Rattle.std.specs.Prelude.{◌≡◌, ℕ, List, []};
ghost use Rattle.schedule.specs.declared.bus_name.BusName.{BusName};
ghost use Rattle.schedule.specs.declared.event.Event.TheVariants.{Deliver};
ghost use Rattle.world_semantics.specs.Messages.{Asking, Sending, Handing};
ghost use Rattle.world_semantics.specs.Rules.{Change};
ghost use Rattle.letters.specs.Posts.{Post, PlaysEvent};
ghost use Rattle.letter_guards.specs.Worlds.{site, next_request, owing};

/// A request that is owed to a copy which acts goes by no delivery but the one that hands it over: it can't be dropped.
pub fn a_letter_that_is_taken_is_not_dropped()
    ensures { (bus : BusName) (k : ℕ) (next : Post) → PlaysEvent site owing (Deliver bus k) next → next.owed ≡ []
        → (sendings : List Sending) × Change site owing.world (Handing 0 (Asking next_request)) sendings next.world }
{}
