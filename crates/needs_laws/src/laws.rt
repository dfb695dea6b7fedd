//! Laws of needs and changes.
ghost use Rattle.std.specs.Prelude.{◌≡◌, ◌≢◌, ℕ, slice_get};
ghost use Rattle.tal_tree.specs.declared.site.Site.{Site};
ghost use Rattle.world_semantics.specs.World.{Pair, World, terminal_node};
ghost use Rattle.world_semantics.specs.Messages.{Message};
ghost use Rattle.world_semantics.specs.Running.{Done, run_done};
ghost use Rattle.computed_changes.specs.Entered.{enter_done};
ghost use Rattle.computed_changes.specs.Handed.{handed_done};
ghost use Rattle.computed_changes.specs.Stopped.{down_done, reload_done, stop_done};
ghost use Rattle.node_needs.specs.NodeNeeds.{needs_at};

/// A change leaves the needs of all other nodes: a run those of the nodes without a copy of its process, an entry those
/// of all but the terminals' node, a message and a mark those of all but the node where it is handed over or made, and
/// a stop and a reload those of all but the processor that stops or is loaded again.
pub fn a_change_leaves_the_needs_of_other_nodes()
    ensures run { (site : Site) (w : World) (number x : ℕ) (pair : Pair) (done : Done)
        → run_done site number w ≡ Some done → slice_get w.processes number ≡ Some pair
        → pair.first.processor ≢ x → pair.second.processor ≢ x
        → needs_at site done.world x ≡ needs_at site w x }
    ensures entered { (site : Site) (w : World) (number x : ℕ) (done : Done) → enter_done site number w ≡ Some done
        → x ≢ terminal_node → needs_at site done.world x ≡ needs_at site w x }
    ensures handed { (site : Site) (w : World) (node x : ℕ) (message : Message) (done : Done)
        → handed_done site node message w ≡ Some done → x ≢ node
        → needs_at site done.world x ≡ needs_at site w x }
    ensures marked { (site : Site) (w : World) (node processor x : ℕ) (done : Done)
        → down_done node processor w ≡ Some done → x ≢ node → needs_at site done.world x ≡ needs_at site w x }
    ensures stopped { (site : Site) (w : World) (processor x : ℕ) (done : Done)
        → stop_done processor w ≡ Some done → x ≢ processor → needs_at site done.world x ≡ needs_at site w x }
    ensures reloaded { (site : Site) (w : World) (processor x : ℕ) (done : Done)
        → reload_done site processor w ≡ Some done → x ≢ processor
        → needs_at site done.world x ≡ needs_at site w x }
{}
