ghost use Rattle.std.specs.Prelude.{◌≡◌, ◌<◌, List, length, reverse};
ghost use Rattle.tal_tree.specs.declared.site.Site.{Site};
ghost use Rattle.schedule.specs.declared.event.Event.{Event};
ghost use Rattle.plain_semantics.specs.Machine.{IsPossible, shown_by};
ghost use Rattle.world_semantics.specs.Follows.{IsRun};
ghost use Rattle.world_semantics.specs.Kept.{acts_of};
ghost use Rattle.world_semantics.specs.Laws.{IsPlaced};
ghost use Rattle.world_semantics.specs.World.{World};
ghost use Rattle.accepted_sites.specs.Premises.{IsAcceptedSite};

/// Where each pair of a site runs a program that was read and is accepted, and each process is in two of its
/// processors, then whatever the events of a run are, with any losses, repeats, delays, stops of whole worlds,
/// takeovers and reloads, the acts that it keeps are possible on the machine of single unfailing processes, and what
/// was shown is what they show. The bound on events is there because an image has 32 bits for the number of a disc's
/// last write.
pub fn kept_acts_are_possible()
    ensures possible { (site : Site) (events : List Event) (w : World) → IsAcceptedSite site → IsPlaced site
        → length events < 4294967296 → IsRun site events w
        → IsPossible site (acts_of w) }
    ensures shown { (site : Site) (events : List Event) (w : World) → IsAcceptedSite site → IsPlaced site
        → length events < 4294967296 → IsRun site events w
        → shown_by site (acts_of w) ≡ reverse w.shown }
{}
