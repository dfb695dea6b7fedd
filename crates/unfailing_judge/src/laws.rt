ghost use Rattle.std.specs.Prelude.{◌≡◌, ◌++◌, List, Some};
ghost use Rattle.plain_semantics.specs.Machine.{made_all, plain_start};
ghost use Rattle.tal_tree.specs.declared.act.Act.{Act};
ghost use Rattle.tal_tree.specs.declared.act.Shown.{Shown};
ghost use Rattle.tal_tree.specs.declared.site.Site.{Site};
ghost use Rattle.unfailing_judge.specs.Order.{GoesBy, NoneGoes, Way, way_of};
ghost use Rattle.unfailing_judge.specs.Turns.{KeepsTurns};

/// There is one order in which the acts go until none can, and it comes to one end.
pub fn there_is_one_order()
    ensures { (site : Site) (order other : List Act) (old new end : Way)
        → GoesBy site order old new → NoneGoes site new.plain new.due new.left
        → GoesBy site other old end → NoneGoes site end.plain end.due end.left
        → (order ≡ other) × (new ≡ end) }
{}

/// Each process and each terminal keeps its own order, and no act is missing or added.
pub fn the_order_keeps_turns()
    ensures { (site : Site) (acts order : List Act) (shown : List Shown) (end : Way)
        → GoesBy site order (way_of site acts shown) end → KeepsTurns acts (order ++ end.left) }
{}

/// The acts are possible in this order, and show the front of what the run showed.
pub fn the_order_is_possible()
    ensures { (site : Site) (acts order : List Act) (shown : List Shown) (end : Way)
        → GoesBy site order (way_of site acts shown) end → (front : List Shown)
        × (made_all site (plain_start site) order ≡ Some (record { plain = end.plain; shown = front }))
        × (shown ≡ front ++ end.due) }
{}
