ghost use Rattle.std.specs.Prelude.{◌≡◌, true, slice_get, Some, None};
ghost use Rattle.alive_regroup.specs.Watching.{after_up, new_watch, changed_at, is_marked, neighbour_after_down};
ghost use Rattle.link_control.specs.Ends.{after_down, alive_of, end_after_reload, sent_by_push};
ghost use Rattle.packet_wires.specs.Nodes.{node_after_reload};
ghost use Rattle.node.specs.Calls.{told_at_end, with_end_changed, with_watch_changed};
ghost use Rattle.node_guards.specs.Nodes.{IsQuiet, busy_node, done_node, first_node, only_piece};
ghost use Rattle.node_guards.specs.Packets.{alive, message_of};

/// A call at an end concerns that end alone, and nothing where the node has none.
pub fn a_call_concerns_its_end()
    ensures told { told_at_end 1 (sent_by_push (message_of 1)) first_node ≡ Some (only_piece 0 1) }
    ensures none_told { told_at_end 17 (sent_by_push (message_of 1)) first_node ≡ None }
    ensures changed { told_at_end 1 alive_of (with_end_changed 1 after_down first_node) ≡ None }
    ensures others { told_at_end 2 alive_of (with_end_changed 1 after_down first_node) ≡ Some (alive 0 2) }
    ensures none_changed { with_end_changed 17 after_down first_node ≡ first_node }
{}

/// What a node learns of processors changes no end.
pub fn learning_changes_no_end()
    ensures watch { is_marked 1 (with_watch_changed (changed_at 1 neighbour_after_down) first_node).watch ≡ true }
    ensures ends { (with_watch_changed (changed_at 1 neighbour_after_down) first_node).ends ≡ first_node.ends }
{}

/// A node is quiet until it pushes a message, and again when that is acknowledged.
pub fn a_node_is_quiet_without_messages()
    ensures first { IsQuiet first_node }
    ensures busy { IsQuiet busy_node → ⊥ }
    ensures done { IsQuiet done_node }
{}

/// A node that is loaded again begins anew; another one knows that it is up, and its end with it alone is new.
pub fn a_reload_concerns_ends_of_the_node()
    ensures own { (node_after_reload 3 0 (with_watch_changed (changed_at 1 neighbour_after_down) busy_node)).watch
        ≡ new_watch 0 3 }
    ensures quiet { IsQuiet (node_after_reload 3 0 busy_node) }
    ensures others { (node_after_reload 3 2 busy_node).watch ≡ after_up 2 busy_node.watch }
    ensures still_busy { IsQuiet (node_after_reload 3 2 busy_node) → ⊥ }
    ensures far { told_at_end 2 alive_of (node_after_reload 3 2 (with_end_changed 2 after_down first_node))
        ≡ told_at_end 2 (λ e. alive_of (end_after_reload 2 e)) first_node }
    ensures kept { slice_get (node_after_reload 3 2 busy_node).ends 16 ≡ slice_get busy_node.ends 16 }
{}
