//! Laws of requests that are served.
ghost use Rattle.std.specs.Prelude.{◌<◌, ℕ, List, length};
ghost use Rattle.tal_tree.specs.declared.site.Site.{Site};
ghost use Rattle.schedule.specs.declared.event.Event.{Event};
ghost use Rattle.world_semantics.specs.Follows.{IsRun};
ghost use Rattle.letter_laws.specs.takeover_laws.specs.Fit.{IsFit};
ghost use Rattle.letters.specs.Posts.{Post, PlaysEvent, post_at_boot};
ghost use Rattle.letter_laws.specs.awaited_requests.specs.Seats.{IsLaidOut};
ghost use Rattle.letter_laws.specs.awaited_requests.specs.Served.{AreServed};
ghost use Rattle.letter_laws.specs.Known.{IsKnown};

/// Nothing is awaited at the beginning; and where awaited requests are served and a machine of letters plays an event,
/// they are served after it as well, however many processors stop one after the other and are loaded again.
pub fn awaited_requests_stay_served()
    ensures beginning { (site : Site) → AreServed site (post_at_boot site) }
    ensures event { (site : Site) (events : List Event) (post next : Post) (event : Event) → IsFit site
        → IsLaidOut site → length events < 4294967295
        → IsRun site events post.world → IsKnown site post → AreServed site post → PlaysEvent site post event next
        → AreServed site next }
{}
