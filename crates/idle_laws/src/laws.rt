//! Laws of what machines play.
ghost use Rattle.std.specs.Prelude.{◌≡◌, ◌≢◌, ◌<◌, ℕ, List, [], length, reverse, slice_get, Some};
ghost use Rattle.tal_tree.specs.declared.site.Site.{Site};
ghost use Rattle.schedule.specs.declared.event.Event.{Event};
ghost use Rattle.process_semantics.specs.declared.point.Point.TheVariants.{Ended};
ghost use Rattle.process_semantics.specs.Process.{point};
ghost use Rattle.plain_semantics.specs.Machine.{Made, PlainProcess, made_all, plain_start, IsNoneLeft, shown_by};
ghost use Rattle.world_semantics.specs.Shares.{closed};
ghost use Rattle.world_semantics.specs.World.{Pair, copy_of};
ghost use Rattle.world_semantics.specs.declared.role.Role.TheVariants.{Acting};
ghost use Rattle.world_semantics.specs.declared.which.Which.{Which};
ghost use Rattle.letters.specs.Idle.{IsIdle};
ghost use Rattle.letters.specs.Posts.{Post, HasPlayed};
ghost use Rattle.served_requests.specs.awaited_requests.specs.Seats.{IsLaidOut};
ghost use Rattle.served_requests.specs.awaited_requests.specs.Served.{AreServed};
ghost use Rattle.accepted_sites.specs.Premises.{IsAcceptedSite};
ghost use Rattle.idle_end.specs.Ends.{IsAsCopy};

/// Where each pair of a site runs a program that was read and is accepted, and its processes are laid out over its
/// processors, then whatever the events are, with any losses, repeats, delays, stops of whole worlds, takeovers and
/// reloads: once nothing is left to do, the kept acts and then the held ones are possible on the machine of single
/// unfailing processes, and leave no act possible there. They show what was shown; and each process is in the state of
/// its copy that acts, with the sectors of its device. A copy that holds acts has ended, so those that are added are of
/// processes that do no more.
pub fn an_idle_end_leaves_none()
    ensures none { (site : Site) (events : List Event) (post : Post) → IsAcceptedSite site → IsLaidOut site
        → length events < 4294967295
        → HasPlayed site events post → IsIdle site post → IsNoneLeft site (closed post.world) }
    ensures shown { (site : Site) (events : List Event) (post : Post) → IsAcceptedSite site → IsLaidOut site
        → length events < 4294967295
        → HasPlayed site events post → IsIdle site post
        → shown_by site (closed post.world) ≡ reverse post.world.shown }
    ensures state { (site : Site) (events : List Event) (post : Post) (made : Made) (number : ℕ) (pair : Pair)
        (k : Which) (one : PlainProcess) → IsAcceptedSite site
        → IsLaidOut site → length events < 4294967295 → HasPlayed site events post
        → IsIdle site post
        → made_all site (plain_start site) (closed post.world) ≡ Some made
        → slice_get post.world.processes number ≡ Some pair → (copy_of k pair).role ≡ Acting
        → slice_get made.plain.processes number ≡ Some one → IsAsCopy one (copy_of k pair) pair }
    ensures ended { (site : Site) (events : List Event) (post : Post) (number : ℕ) (pair : Pair) (k : Which)
        → IsAcceptedSite site → IsLaidOut site
        → length events < 4294967295 → HasPlayed site events post → IsIdle site post
        → slice_get post.world.processes number ≡ Some pair → (copy_of k pair).held ≢ []
        → point (copy_of k pair).core.state ≡ Ended }
{}

/// All the while, every request whose reply is awaited is served: the processor to which it goes has stopped, or it is
/// on its way there, or the copy there has seen to it.
pub fn every_awaited_request_is_served()
    ensures { (site : Site) (events : List Event) (post : Post) → IsAcceptedSite site → IsLaidOut site
        → length events < 4294967295
        → HasPlayed site events post → AreServed site post }
{}
