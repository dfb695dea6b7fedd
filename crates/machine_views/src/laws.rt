//! What the view of a world tells of its nodes.
ghost use Rattle.std.specs.Prelude.{◌≡◌, ◌↔◌, ◌<◌, ◌≤◌, ℕ, Bool, true, List, Some, slice_get};
ghost use Rattle.gd_words.specs.Members.{IsAmong};
ghost use Rattle.gd_words.specs.declared.limits.TheConstants.{MOST_PROCESSORS, TERMINAL_NODE};
ghost use Rattle.world_semantics.specs.World as world;
ghost use Rattle.machine_views.specs.Orders.{IsRising};
ghost use Rattle.machine_views.specs.Views.{downs_in};
ghost use Rattle.site_machine.specs.Stopped.{stopped_from};

/// The processors that are told are those that have stopped, and they rise.
pub fn stopped_processors_are_told()
    ensures told { (stopped : List Bool) (processor : ℕ)
        → (IsAmong processor (stopped_from 0 stopped) ↔ slice_get stopped processor ≡ Some true) }
    ensures rising { (stopped : List Bool) → IsRising (stopped_from 0 stopped) }
{}

/// The marks that are told are those that stand, of a processor below 16 by one or by the node of the terminals.
pub fn marks_are_told()
    ensures { (downs : List world.Down) (node processor : ℕ)
        → (IsAmong (record { node = node; down = processor }) (downs_in downs)
        ↔ (node ≤ TERMINAL_NODE) × (processor < MOST_PROCESSORS) × (world.has_marked downs node processor ≡ true)) }
{}
