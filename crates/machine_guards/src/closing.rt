ghost use Rattle.std.specs.Prelude.{◌≡◌, ◌++◌};
ghost use Rattle.std.specs.List.{flat_map};
ghost use Rattle.world_semantics.specs.Kept.{acts_of};
ghost use Rattle.world_semantics.specs.Shares.{closed};
ghost use Rattle.world_semantics.specs.World.{World};
ghost use Rattle.machine_guards.specs.Held.{held_by};

/// The acts of a closed run are those that were kept, the oldest first, and then what the copies of each process held,
/// in the order of the deck.
pub fn what_was_held_is_kept_at_the_end()
    ensures { (w : World) → closed w ≡ acts_of w ++ flat_map held_by w.processes }
{}
