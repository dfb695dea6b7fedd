//! Laws of the idle end.
ghost use Rattle.std.specs.Prelude.{◌≡◌, ◌≢◌, ℕ, List, [], reverse, slice_get, Some};
ghost use Rattle.tal_tree.specs.declared.site.Site.{Site};
ghost use Rattle.schedule.specs.declared.event.Event.{Event};
ghost use Rattle.process_semantics.specs.declared.point.Point.TheVariants.{Ended};
ghost use Rattle.process_semantics.specs.Process.{point};
ghost use Rattle.plain_semantics.specs.Machine.{Made, PlainProcess, made_all, plain_start, shown_by, IsNoneLeft};
ghost use Rattle.world_semantics.specs.declared.role.Role.TheVariants.{Acting};
ghost use Rattle.world_semantics.specs.declared.which.Which.{Which};
ghost use Rattle.world_semantics.specs.Kept.{own_acts};
ghost use Rattle.world_semantics.specs.Shares.{closed};
ghost use Rattle.world_semantics.specs.World.{Pair, copy_of};
ghost use Rattle.letters.specs.Posts.{Post};
ghost use Rattle.idle_end.specs.Ends.{IsIdleEnd, IsAsCopy};

/// At an idle end of a run of a fit site where every awaited request is served, no act of the machine of single
/// unfailing processes is left after the kept acts and then the held ones, the held ones show nothing, and each process
/// is there as its copy that acts. A copy that holds acts has ended.
pub fn an_idle_end_of_served_requests_leaves_none()
    ensures none { (site : Site) (events : List Event) (post : Post) → IsIdleEnd site events post
        → IsNoneLeft site (closed post.world) }
    ensures shown { (site : Site) (events : List Event) (post : Post) → IsIdleEnd site events post
        → shown_by site (closed post.world) ≡ reverse post.world.shown }
    ensures state { (site : Site) (events : List Event) (post : Post) (m : Made) (number : ℕ) (pair : Pair) (k : Which)
        (one : PlainProcess) → IsIdleEnd site events post
        → made_all site (plain_start site) (closed post.world) ≡ Some m
        → slice_get post.world.processes number ≡ Some pair → (copy_of k pair).role ≡ Acting
        → slice_get m.plain.processes number ≡ Some one → IsAsCopy one (copy_of k pair) pair }
    ensures ended { (site : Site) (events : List Event) (post : Post) (number : ℕ) (pair : Pair) (k : Which)
        → IsIdleEnd site events post
        → slice_get post.world.processes number ≡ Some pair → (copy_of k pair).held ≢ []
        → point (copy_of k pair).core.state ≡ Ended }
{}

/// At such an idle end no copy is behind: each copy that acts has done as many acts as are kept of its process.
pub fn no_copy_is_behind_at_an_idle_end()
    ensures { (site : Site) (events : List Event) (post : Post) (number : ℕ) (pair : Pair) (k : Which)
        → IsIdleEnd site events post
        → slice_get post.world.processes number ≡ Some pair → (copy_of k pair).role ≡ Acting
        → (copy_of k pair).position ≡ own_acts number post.world.kept }
{}
