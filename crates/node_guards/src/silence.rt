ghost use Rattle.std.specs.Prelude.{◌≡◌, ℕ, true, false, Some, None};
ghost use Rattle.alive_regroup.specs.Watching.{Watching, after_tick, changed_at, misses_none, new_watch, told_by_tick};
ghost use Rattle.alive_regroup.specs.Watching.{after_up, is_held, is_marked, neighbour_after_alive};
ghost use Rattle.alive_regroup.specs.Watching.{neighbour_after_down, neighbour_after_report};
ghost use Rattle.node_guards.specs.Watches.{after_ticks, heard_and_marked, only, watch_of_report};

/// A processor of which nothing is heard is silent at the second check that misses it, the fourth tick, and the silent
/// set is told then and no more.
pub fn silence_takes_two_checks()
    ensures first_check { told_by_tick (after_ticks 1 (new_watch 0 3)) ≡ None }
    ensures second_check { told_by_tick (after_ticks 3 (new_watch 0 3)) ≡ Some (only false true true) }
    ensures no_check { told_by_tick (after_ticks 4 (new_watch 0 3)) ≡ None }
    ensures third_check { told_by_tick (after_ticks 5 (new_watch 0 3)) ≡ None }
{}

/// An alive packet between two checks begins the count anew.
pub fn an_alive_packet_breaks_the_silence()
    ensures neighbour_after_alive { told_by_tick
        (after_ticks 1 (changed_at 1 neighbour_after_alive (after_ticks 2 (new_watch 0 3))))
        ≡ Some (only false false true) }
    ensures both { told_by_tick (after_ticks 1
        (changed_at 1 neighbour_after_alive (changed_at 2 neighbour_after_alive (after_ticks 2 (new_watch 0 3)))))
        ≡ None }
{}

/// The check after a mark tells the silent set once more, without the processor that is marked.
pub fn a_mark_is_told_once()
    ensures told { told_by_tick (after_ticks 1 (changed_at 2 neighbour_after_down (after_ticks 4 (new_watch 0 3))))
        ≡ Some (only false true false) }
    ensures not_again { told_by_tick (after_ticks 3 (changed_at 2 neighbour_after_down (after_ticks 4 (new_watch 0 3))))
        ≡ None }
{}

/// The line of a processor is pulled where the node finds it silent, each other processor that isn't marked down
/// reported it, and the node is the lowest of them.
pub fn a_line_is_pulled_by_the_lowest()
    ensures lowest { is_held 2 (watch_of_report 1 (only false false true) 4 0) ≡ true }
    ensures not_lowest { is_held 2 (watch_of_report 0 (only false false true) 4 1) ≡ false }
    ensures lowest_but_the_silent { is_held 0 (watch_of_report 2 (only true false false) 4 1) ≡ true }
    ensures not_reported { is_held 2 (watch_of_report 1 (only false false false) 4 0) ≡ false }
    ensures not_yet_silent { is_held 2 (watch_of_report 1 (only false false true) 2 0) ≡ false }
    ensures neighbour_after_down { is_held 2
        (changed_at 2 neighbour_after_down (watch_of_report 1 (only false false true) 4 0)) ≡ false }
    ensures one_of_two { is_held 2
        (changed_at 1 (neighbour_after_report (only false false true)) (after_ticks 4 (new_watch 0 4))) ≡ false }
    ensures both { is_held 2 (changed_at 3 (neighbour_after_report (only false false true))
        (changed_at 1 (neighbour_after_report (only false false true)) (after_ticks 4 (new_watch 0 4)))) ≡ true }
    ensures lower_is_marked { is_held 2 (changed_at 0 neighbour_after_down (after_ticks 4 (new_watch 1 3))) ≡ true }
{}

/// The node of the terminals checks never, and pulls no line.
pub fn node_16_only_listens()
    ensures told { told_by_tick (after_ticks 3 (new_watch 16 3)) ≡ None }
    ensures line { is_held 0 (watch_of_report 1 (only true false false) 4 16) ≡ false }
{}

/// A processor that was loaded again is silent at the second check that misses it.
pub fn a_loaded_processor_is_watched_anew()
    ensures first_check { told_by_tick (after_ticks 1 (changed_at 1 neighbour_after_alive (after_up 2 (new_watch 0 3))))
        ≡ Some (only false false false) }
    ensures second_check { told_by_tick (after_ticks 3
        (changed_at 1 neighbour_after_alive (after_up 2 (new_watch 0 3))))
        ≡ Some (only false false true) }
{}

/// What was heard of a processor before its mark counts at the next check, even if it was loaded again meanwhile; and
/// at no later one. While it is marked nothing is heard of it.
pub fn what_was_heard_counts_at_the_next_check()
    ensures no_check { told_by_tick (after_ticks 3 (after_up 2 heard_and_marked)) ≡ Some (only false true false) }
    ensures check { told_by_tick (after_ticks 3 (after_up 2 (after_ticks 2 heard_and_marked)))
        ≡ Some (only false true true) }
    ensures marked { told_by_tick (after_ticks 3 (after_up 2
        (changed_at 2 neighbour_after_alive (changed_at 2 neighbour_after_down (new_watch 0 3)))))
        ≡ Some (only false true true) }
{}

/// After a processor was loaded again, the next check reports even if it changes nothing, and no later one. That
/// processor is marked no more, and nobody agrees that it is silent.
pub fn a_reload_is_reported()
    ensures told { told_by_tick (after_ticks 1 (after_up 2 (new_watch 0 3))) ≡ Some (only false false false) }
    ensures once { told_by_tick (after_ticks 1
        (changed_at 1 neighbour_after_alive (changed_at 2 neighbour_after_alive
        (after_ticks 2 (after_up 2 (new_watch 0 3)))))) ≡ None }
    ensures marked { is_marked 2 (after_up 2 (changed_at 2 neighbour_after_down (new_watch 0 3))) ≡ false }
    ensures held { is_held 2 (after_up 2 (watch_of_report 1 (only false false true) 4 0)) ≡ false }
    ensures forgotten { is_held 2 (after_ticks 4 (after_up 2 (watch_of_report 1 (only false false true) 4 0))) ≡ false }
{}

/// If the last check missed no processor, no hold line is pulled after the next tick.
pub fn no_line_is_pulled_if_none_was_missed()
    ensures { (watch : Watching) → misses_none watch ≡ true → (processor : ℕ)
        → is_held processor (after_tick watch) ≡ false }
{}
