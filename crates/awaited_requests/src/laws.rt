//! Laws of requests that are awaited.
ghost use Rattle.std.specs.Prelude.{◌≡◌, ◌≢◌, ◌<◌, ℕ, List, length, slice_get, Some};
ghost use Rattle.tal_tree.specs.declared.site.Site.{Site};
ghost use Rattle.tal_tree.specs.declared.site.Who.{Who};
ghost use Rattle.schedule.specs.declared.event.Event.{Event};
ghost use Rattle.world_semantics.specs.plain_semantics.specs.declared.slot.Opener.{Opener};
ghost use Rattle.world_semantics.specs.plain_semantics.specs.Openers.{opener_of};
ghost use Rattle.world_semantics.specs.Follows.{IsRun};
ghost use Rattle.world_semantics.specs.World.{Pair, World, copy_of};
ghost use Rattle.world_semantics.specs.declared.role.Role.TheVariants.{Blank, Gone};
ghost use Rattle.world_semantics.specs.declared.which.Which.{Which};
ghost use Rattle.takeover_laws.specs.Fit.{IsFit};
ghost use Rattle.awaited_requests.specs.Awaited.{IsAwaited, StandsThere};
ghost use Rattle.awaited_requests.specs.Seats.{IsLaidOut, AreSeated};

/// A request whose reply is awaited stands next, in hand or kept at each copy of its server that isn't gone or blank,
/// whatever was taken over: the depth to which replies are kept is enough.
pub fn awaited_requests_stand_at_their_server()
    ensures { (site : Site) (events : List Event) (w : World) (asker : ℕ) (one : Who) (n : ℕ) (opener : Opener)
        (pair : Pair) (k : Which) → IsFit site
        → length events < 4294967296 → IsRun site events w → IsAwaited site w asker one n
        → opener_of site one ≡ Some opener
        → slice_get w.processes opener.server ≡ Some pair → (copy_of k pair).role ≢ Gone
        → (copy_of k pair).role ≢ Blank → StandsThere (copy_of k pair).core opener.place n }
{}

/// Copies stay where the site has laid them out. None acts, watches or is blank with acts that it shouldn't hold. One
/// that watches or is blank doesn't lead, and knows of no loss of the other.
pub fn copies_stay_seated()
    ensures { (site : Site) (events : List Event) (w : World) → IsLaidOut site → IsRun site events w
        → AreSeated site w }
{}
