//! Where no processor was ever loaded again, what the rules say of reloads changes nothing.
ghost use Rattle.std.specs.Prelude.{◌≡◌, ◌≢◌, ◌≤◌, ◌↔◌, ℕ, ◌+◌, List, slice_get, Some, true, false};
ghost use Rattle.gd_words.specs.Members.{IsAmong};
ghost use Rattle.tal_tree.specs.declared.site.Site.{Site};
ghost use Rattle.schedule.specs.declared.event.Event.{Event};
ghost use Rattle.checkpoint_image.specs.declared.message.ImageMessage.{ImageMessage};
ghost use Rattle.process_semantics.specs.declared.point.Point.TheVariants.{AtCheckpoint};
ghost use Rattle.world_semantics.specs.Follows.{IsRun};
ghost use Rattle.world_semantics.specs.Kept.{own_acts};
ghost use Rattle.world_semantics.specs.Laws.{IsPlaced};
ghost use Rattle.world_semantics.specs.Messages.{Cause};
ghost use Rattle.world_semantics.specs.Passes.{MaySend, point_at};
ghost use Rattle.world_semantics.specs.Rules.{IsFreeFor};
ghost use Rattle.world_semantics.specs.World.{Pair, World, copy_of, is_whole, other_of, receives};
ghost use Rattle.world_semantics.specs.declared.role.Role.TheVariants.{Blank, Watching};
ghost use Rattle.world_semantics.specs.declared.which.Which.{Which};
ghost use Rattle.world_semantics.specs.declared.which.Which.TheVariants.{First};
ghost use Rattle.reload_guards.specs.Without.{HasNoReload, HasNoStop};

/// No copy is blank, so those that get checkpoints watch; none has to send everything; and the first copy of each
/// process still leads.
pub fn copies_without_a_reload()
    ensures blank { (site : Site) (events : List Event) (w : World) (number : ℕ) (pair : Pair) (k : Which)
        → IsRun site events w → HasNoReload w → slice_get w.processes number ≡ Some pair
        → (copy_of k pair).role ≡ Blank → ⊥ }
    ensures receives { (site : Site) (events : List Event) (w : World) (number : ℕ) (pair : Pair) (k : Which)
        → IsRun site events w → HasNoReload w → slice_get w.processes number ≡ Some pair
        → receives (copy_of k pair).role ≡ true → (copy_of k pair).role ≡ Watching }
    ensures renewal { (site : Site) (events : List Event) (w : World) (number : ℕ) (pair : Pair) (k : Which)
        → IsRun site events w → HasNoReload w → slice_get w.processes number ≡ Some pair
        → (copy_of k pair).renewal ≡ false }
    ensures leads { (site : Site) (events : List Event) (w : World) (number : ℕ) (pair : Pair)
        → IsRun site events w → HasNoReload w → slice_get w.processes number ≡ Some pair → pair.led ≡ First }
{}

/// A world is whole exactly where no processor has stopped, so only a second stop is ruled out.
pub fn whole_worlds_without_a_reload()
    ensures { (site : Site) (events : List Event) (w : World) → IsRun site events w → HasNoReload w
        → (is_whole w ≡ true ↔ HasNoStop w) }
{}

/// A copy sends a checkpoint only where it stands at one, what it has sent ends nowhere else, and elsewhere it is free
/// to do its acts. What the other copy applies was sent where that one still stands, and by one that isn't behind the
/// kept acts.
pub fn checkpoints_without_a_reload()
    ensures sends { (site : Site) (events : List Event) (w : World) (number : ℕ) (pair : Pair) (k : Which)
        → IsRun site events w → HasNoReload w → slice_get w.processes number ≡ Some pair
        → (MaySend (copy_of k pair) ↔ point_at (copy_of k pair) ≡ AtCheckpoint) }
    ensures ends { (site : Site) (events : List Event) (w : World) (number : ℕ) (pair : Pair) (k : Which)
        → IsRun site events w → HasNoReload w → slice_get w.processes number ≡ Some pair
        → (copy_of k pair).sent ≡ true → point_at (copy_of k pair) ≡ AtCheckpoint }
    ensures free { (site : Site) (events : List Event) (w : World) (number : ℕ) (pair : Pair) (k : Which)
        (cause : Cause) → IsRun site events w → HasNoReload w → slice_get w.processes number ≡ Some pair
        → point_at (copy_of k pair) ≢ AtCheckpoint → IsFreeFor cause (copy_of k pair) }
    ensures applies { (site : Site) (events : List Event) (w : World) (number : ℕ) (pair : Pair) (k : Which)
        (message : ImageMessage) → IsPlaced site → IsRun site events w → HasNoReload w
        → slice_get w.processes number ≡ Some pair → receives (copy_of k pair).role ≡ true
        → IsAmong message pair.checkpoints → message.era ≡ (copy_of k pair).era
        → message.number ≡ (copy_of k pair).number + 1
        → point_at (copy_of (other_of k) pair) ≡ AtCheckpoint }
    ensures level { (site : Site) (events : List Event) (w : World) (number : ℕ) (pair : Pair) (k : Which)
        (message : ImageMessage) → IsPlaced site → IsRun site events w → HasNoReload w
        → slice_get w.processes number ≡ Some pair → receives (copy_of k pair).role ≡ true
        → IsAmong message pair.checkpoints → message.era ≡ (copy_of k pair).era
        → message.number ≡ (copy_of k pair).number + 1
        → own_acts number w.kept ≤ (copy_of (other_of k) pair).position }
{}
