//! Laws of what is played over whole messages.
ghost use Rattle.std.specs.Prelude.{◌≡◌, ◌≢◌, ◌<◌, ℕ, true, List, [], length, reverse, slice_get, Some};
ghost use Rattle.tal_tree.specs.declared.site.Site.{Site};
ghost use Rattle.schedule.specs.declared.event.Event.{Event};
ghost use Rattle.process_semantics.specs.declared.point.Point.TheVariants.{Ended};
ghost use Rattle.process_semantics.specs.Process.{point};
ghost use Rattle.plain_semantics.specs.Machine.{Made, PlainProcess, made_all, plain_start, IsNoneLeft, IsPossible};
ghost use Rattle.plain_semantics.specs.Machine.{shown_by};
ghost use Rattle.world_semantics.specs.declared.role.Role.TheVariants.{Acting};
ghost use Rattle.world_semantics.specs.declared.which.Which.{Which};
ghost use Rattle.world_semantics.specs.Kept.{acts_of};
ghost use Rattle.world_semantics.specs.Shares.{closed};
ghost use Rattle.world_semantics.specs.World.{Pair, copy_of};
ghost use Rattle.awaited_requests.specs.Seats.{IsLaidOut};
ghost use Rattle.accepted_sites.specs.Premises.{IsAcceptedSite};
ghost use Rattle.idle_end.specs.Ends.{IsAsCopy};
ghost use Rattle.message_wires.specs.Idle.{is_idle};
ghost use Rattle.message_wires.specs.Play.{MachineState};
ghost use Rattle.message_wires.specs.Runs.{IsPlayed};

/// Where each pair of a site runs a program that was read and is accepted, and its processes are laid out over its
/// processors: whatever events are played, with any number of stops and reloads, the acts that are kept are possible on
/// the machine of single unfailing processes, and what was shown is what they show.
pub fn what_is_played_is_possible()
    ensures possible { (site : Site) (events : List Event) (s : MachineState) → IsAcceptedSite site → IsLaidOut site
        → length events < 4294967295 → IsPlayed site events s
        → IsPossible site (acts_of s.world) }
    ensures shown { (site : Site) (events : List Event) (s : MachineState) → IsAcceptedSite site → IsLaidOut site
        → length events < 4294967295 → IsPlayed site events s
        → shown_by site (acts_of s.world) ≡ reverse s.world.shown }
{}

/// Where the state that they lead to is idle, the kept acts and then the held ones leave no act possible there, and
/// show what was shown; and each process is in the state of its copy that acts, with the sectors of its device. A copy
/// that holds acts has ended, so those that are added are of processes that do no more.
pub fn an_idle_end_that_is_played_leaves_none()
    ensures none { (site : Site) (events : List Event) (s : MachineState) → IsAcceptedSite site → IsLaidOut site
        → length events < 4294967295 → IsPlayed site events s
        → is_idle s ≡ true → IsNoneLeft site (closed s.world) }
    ensures shown { (site : Site) (events : List Event) (s : MachineState) → IsAcceptedSite site → IsLaidOut site
        → length events < 4294967295 → IsPlayed site events s
        → is_idle s ≡ true → shown_by site (closed s.world) ≡ reverse s.world.shown }
    ensures state { (site : Site) (events : List Event) (s : MachineState) (made : Made) (number : ℕ) (pair : Pair)
        (k : Which) (one : PlainProcess) → IsAcceptedSite site
        → IsLaidOut site → length events < 4294967295 → IsPlayed site events s → is_idle s ≡ true
        → made_all site (plain_start site) (closed s.world) ≡ Some made
        → slice_get s.world.processes number ≡ Some pair → (copy_of k pair).role ≡ Acting
        → slice_get made.plain.processes number ≡ Some one
        → IsAsCopy one (copy_of k pair) pair }
    ensures ended { (site : Site) (events : List Event) (s : MachineState) (number : ℕ) (pair : Pair) (k : Which)
        → IsAcceptedSite site → IsLaidOut site
        → length events < 4294967295 → IsPlayed site events s → is_idle s ≡ true
        → slice_get s.world.processes number ≡ Some pair → (copy_of k pair).held ≢ []
        → point (copy_of k pair).core.state ≡ Ended }
{}
