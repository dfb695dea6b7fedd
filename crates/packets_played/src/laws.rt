//! Laws of what is played over packets.
ghost use Rattle.std.specs.Prelude.{◌≡◌, ◌<◌, ℕ, true, List, length, reverse, slice_get, Some};
ghost use Rattle.tal_tree.specs.declared.site.Site.{Site};
ghost use Rattle.schedule.specs.declared.event.Event.{Event};
ghost use Rattle.plain_semantics.specs.Machine.{Made, PlainProcess, made_all, plain_start, IsNoneLeft, IsPossible};
ghost use Rattle.plain_semantics.specs.Machine.{shown_by};
ghost use Rattle.plain_semantics.specs.SiteLimits.{KeepsSiteLimits};
ghost use Rattle.idle_laws.specs.world_semantics.specs.declared.role.Role.TheVariants.{Acting};
ghost use Rattle.idle_laws.specs.world_semantics.specs.declared.which.Which.{Which};
ghost use Rattle.idle_laws.specs.world_semantics.specs.Kept.{acts_of};
ghost use Rattle.idle_laws.specs.world_semantics.specs.Shares.{closed};
ghost use Rattle.idle_laws.specs.world_semantics.specs.World.{Pair, copy_of};
ghost use Rattle.idle_laws.specs.awaited_requests.specs.Seats.{IsLaidOut};
ghost use Rattle.idle_laws.specs.accepted_sites.specs.Premises.{IsAcceptedSite};
ghost use Rattle.idle_laws.specs.idle_end.specs.Ends.{IsAsCopy};
ghost use Rattle.packets_laws.specs.packet_wires.specs.Idle.{is_idle};
ghost use Rattle.packets_laws.specs.packet_wires.specs.Play.{Packeted};
ghost use Rattle.packets_laws.specs.packet_wires.specs.Runs.{IsPlayed};

/// Let each pair of a site run a program that was read and is accepted, and let the site keep the limits and have its
/// processes laid out over its processors. Then the acts that any played events keep are possible on the machine of
/// single unfailing processes, and show there what was shown.
pub fn what_is_played_is_possible()
    ensures possible { (site : Site) (events : List Event) (s : Packeted) → IsAcceptedSite site → KeepsSiteLimits site
        → IsLaidOut site → length events < 4294967295
        → IsPlayed site events s → IsPossible site (acts_of s.world) }
    ensures shown { (site : Site) (events : List Event) (s : Packeted) → IsAcceptedSite site → KeepsSiteLimits site
        → IsLaidOut site → length events < 4294967295
        → IsPlayed site events s → shown_by site (acts_of s.world) ≡ reverse s.world.shown }
{}

/// If the state at the end is idle, no act is possible after the kept acts and the held ones, and these show what was
/// shown. Each process is in the state of its acting copy, with the sectors of its device.
pub fn an_idle_end_that_is_played_leaves_none()
    ensures none { (site : Site) (events : List Event) (s : Packeted) → IsAcceptedSite site → KeepsSiteLimits site
        → IsLaidOut site → length events < 4294967295
        → IsPlayed site events s → is_idle s ≡ true → IsNoneLeft site (closed s.world) }
    ensures shown { (site : Site) (events : List Event) (s : Packeted) → IsAcceptedSite site → KeepsSiteLimits site
        → IsLaidOut site → length events < 4294967295
        → IsPlayed site events s → is_idle s ≡ true → shown_by site (closed s.world) ≡ reverse s.world.shown }
    ensures state { (site : Site) (events : List Event) (s : Packeted) (made : Made) (number : ℕ) (pair : Pair)
        (k : Which) (one : PlainProcess) → IsAcceptedSite site
        → KeepsSiteLimits site → IsLaidOut site → length events < 4294967295 → IsPlayed site events s → is_idle s ≡ true
        → made_all site (plain_start site) (closed s.world) ≡ Some made
        → slice_get s.world.processes number ≡ Some pair → (copy_of k pair).role ≡ Acting
        → slice_get made.plain.processes number ≡ Some one → IsAsCopy one (copy_of k pair) pair }
{}
