ghost use Rattle.std.specs.Prelude.{◌≡◌, ◌<◌, List, length, reverse};
ghost use Rattle.tal_tree.specs.declared.site.Site.{Site};
ghost use Rattle.schedule.specs.declared.event.Event.{Event};
ghost use Rattle.world_semantics.specs.plain_semantics.specs.Machine.{IsPossible, shown_by};
ghost use Rattle.world_semantics.specs.Follows.{IsRun};
ghost use Rattle.world_semantics.specs.Kept.{acts_of};
ghost use Rattle.world_semantics.specs.World.{World};
ghost use Rattle.takeover_laws.specs.Fit.{IsFit};
ghost use Rattle.takeover_laws.specs.Invariant.{Invariant};

/// Each world that a run of a fit site reaches keeps the invariant.
pub fn runs_keep_the_invariant()
    ensures { (site : Site) (events : List Event) (w : World) → IsFit site → length events < 4294967296
        → IsRun site events w → Invariant site (length events) w }
{}

/// Whatever the events of a run of a fit site are, the acts that it keeps are possible on the machine of single
/// unfailing processes, and what was shown is what they show.
pub fn kept_acts_of_fit_sites_are_possible()
    ensures possible { (site : Site) (events : List Event) (w : World) → IsFit site → length events < 4294967296
        → IsRun site events w → IsPossible site (acts_of w) }
    ensures shown { (site : Site) (events : List Event) (w : World) → IsFit site → length events < 4294967296
        → IsRun site events w → shown_by site (acts_of w) ≡ reverse w.shown }
{}
