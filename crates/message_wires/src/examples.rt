//! Worked runs over whole messages, packet by packet.
ghost use Rattle.std.specs.Prelude.{◌≡◌, true, false, pos, [], ◌∷◌, map};
ghost use Rattle.schedule.specs.declared.bus_name.BusName.TheVariants as bus;
ghost use Rattle.schedule.specs.declared.event.Event.TheVariants as event;
ghost use Rattle.tal_tree.specs.declared.act.Act.TheVariants as act;
ghost use Rattle.tal_tree.specs.declared.act.Shown.TheVariants.{Reply};
ghost use Rattle.computed_changes.specs.world_semantics.specs.Examples.{delivery, reply, run};
ghost use Rattle.computed_changes.specs.world_semantics.specs.declared.role.Role.TheVariants.{Watching};
ghost use Rattle.machine_states.specs.States.{Skips, Would, SecondStop};
ghost use Rattle.message_wires.specs.Idle.{is_idle};
ghost use Rattle.message_wires.specs.Play.{play};
ghost use Rattle.message_wires.specs.Tiers.{after_rounds, before_stop, in_hand, stopped_after};
ghost use Rattle.message_wires.specs.Examples.{adder_at_boot, after_checkpoint, answers, asks, buses_from};
ghost use Rattle.message_wires.specs.Examples.{buses_of_takeover, buses_to_checkpoint, checkpoint, end_of, sight, told};
ghost use Rattle.message_wires.specs.Examples.{until_dropped, up_to_checkpoint};
ghost use Rattle.message_wires.specs.Examples.{adder_reloaded, adder_renewed, buses_of_renewal, buses_to_reload};
ghost use Rattle.message_wires.specs.Examples.{renewal, second_takeover, until_reload};

/// A takeover of the adder, event for event with the packets on the bus: the reply that the marked node sent is
/// dropped, and the reply is printed once.
pub fn an_adder_is_taken_over()
    ensures before { buses_from adder_at_boot up_to_checkpoint ≡ buses_to_checkpoint }
    ensures after { buses_from (end_of adder_at_boot up_to_checkpoint) after_checkpoint ≡ buses_of_takeover }
    ensures dropped { (end_of (end_of adder_at_boot up_to_checkpoint) until_dropped).world.shown ≡ [] }
    ensures shown { (end_of (end_of adder_at_boot up_to_checkpoint) after_checkpoint).world.shown
        ≡ reply 0 (pos 5) ∷ [] }
    ensures owed { (end_of (end_of adder_at_boot up_to_checkpoint) after_checkpoint).wires.owed ≡ [] }
{}

/// A request that is lost on the bus stays owed, and is put on the bus again at its sender's tick, and not at another
/// node's.
pub fn a_lost_request_is_put_again()
    ensures { buses_from adder_at_boot (event.Enter 0 ∷ event.Lose bus.X 0 ∷ event.Tick 0 ∷ event.Tick 16
        ∷ event.Tick 16 ∷ [])
        ≡ (asks 0 ∷ []) ∷ [] ∷ [] ∷ (asks 0 ∷ []) ∷ (asks 0 ∷ []) ∷ [] }
{}

/// A repeat of a request that was handed over is handed over again, and is never put on the bus again.
pub fn a_repeat_is_not_put_again()
    ensures bus { buses_from adder_at_boot (event.Enter 0 ∷ event.Repeat bus.X 0 ∷ delivery ∷ event.Tick 16 ∷ delivery
        ∷ event.Tick 16 ∷ [])
        ≡ (asks 0 ∷ []) ∷ (asks 0 ∷ asks 0 ∷ []) ∷ (asks 0 ∷ []) ∷ (asks 0 ∷ []) ∷ [] ∷ [] ∷ [] }
    ensures lost { buses_from adder_at_boot
        (event.Enter 0 ∷ event.Repeat bus.X 0 ∷ delivery ∷ event.Lose bus.X 0 ∷ event.Tick 16 ∷ [])
        ≡ (asks 0 ∷ []) ∷ (asks 0 ∷ asks 0 ∷ []) ∷ (asks 0 ∷ []) ∷ [] ∷ [] ∷ [] }
{}

/// A checkpoint that was sent before its processor stopped is applied where it comes before the other node's mark, and
/// dropped where it comes after it: then the second copy takes over at the beginning.
pub fn a_stop_leaves_a_checkpoint_on_the_bus()
    ensures in_time { buses_from (end_of adder_at_boot up_to_checkpoint)
        (event.Fail 0 ∷ delivery ∷ event.Tick 1 ∷ run ∷ [])
        ≡ (checkpoint ∷ []) ∷ (told ∷ []) ∷ (told ∷ []) ∷ (told ∷ answers 1 ∷ []) ∷ [] }
    ensures late { buses_from (end_of adder_at_boot up_to_checkpoint)
        (event.Fail 0 ∷ event.Tick 1 ∷ delivery ∷ event.Tick 16 ∷ [])
        ≡ (checkpoint ∷ []) ∷ (checkpoint ∷ []) ∷ [] ∷ (asks 1 ∷ []) ∷ [] }
    ensures kept { (end_of (end_of adder_at_boot up_to_checkpoint)
        (event.Fail 0 ∷ event.Tick 1 ∷ delivery ∷ [])).world.kept
        ≡ act.Step 0 ∷ act.Step 0 ∷ act.Step 0 ∷ act.Enter 0 ∷ [] }
{}

/// Two tiers that are lost together: when processor 0 stops, the front and the adder that it asks both have a request
/// in hand there. Both are taken over in processor 1, and rounds go on to an idle end, at which both replies were
/// printed once and nothing is owed.
pub fn two_tiers_come_to_an_idle_end()
    ensures both_serve { in_hand (before_stop 12) ≡ true ∷ true ∷ [] }
    ensures idle { is_idle (after_rounds 24 (stopped_after 12)) ≡ true }
    ensures shown { (after_rounds 24 (stopped_after 12)).world.shown
        ≡ Reply 0 2 (pos 12 ∷ []) ∷ Reply 0 1 (pos 5 ∷ []) ∷ [] }
    ensures owed { (after_rounds 24 (stopped_after 12)).wires.owed ≡ [] }
{}

/// What comes to a processor that has stopped stays owed, until its sender marks that one and asks the other. A stopped
/// processor doesn't tick, and no second one stops.
pub fn a_stopped_processor_does_nothing()
    ensures owed { map sight (end_of adder_at_boot (event.Enter 0 ∷ event.Fail 0 ∷ delivery ∷ [])).wires.owed
        ≡ asks 0 ∷ [] }
    ensures again { buses_from adder_at_boot
        (event.Enter 0 ∷ event.Fail 0 ∷ delivery ∷ event.Tick 0 ∷ event.Tick 16 ∷ [])
        ≡ (asks 0 ∷ []) ∷ (asks 0 ∷ []) ∷ [] ∷ [] ∷ (asks 1 ∷ []) ∷ [] }
    ensures ticks { play (end_of adder_at_boot (event.Fail 0 ∷ [])) (event.Tick 0) ≡ Skips }
    ensures stops { play (end_of adder_at_boot (event.Fail 0 ∷ [])) (event.Fail 1) ≡ Would (SecondStop 1) }
{}

/// A packet that is on the bus when its receiver is loaded again is dropped where it comes, and nothing waits there.
/// The other copy sends everything, and is told that it was taken.
pub fn an_old_packet_is_dropped()
    ensures before { buses_from adder_at_boot until_reload ≡ buses_to_reload }
    ensures after { buses_from adder_reloaded renewal ≡ buses_of_renewal }
    ensures waits { map (λ pair. pair.first.waiting) adder_renewed.world.processes ≡ [] ∷ [] }
    ensures roles { map (λ pair. pair.first.role) adder_renewed.world.processes ≡ Watching ∷ [] }
    ensures owed { map sight adder_renewed.wires.owed ≡ asks 1 ∷ [] }
{}

/// Until the copy that was loaded again has everything no other processor stops: the run would end there. Then one may,
/// and the copy takes over in its turn: the reply is printed once.
pub fn an_adder_is_taken_over_after_a_reload()
    ensures blank { play adder_reloaded (event.Fail 1) ≡ Would (SecondStop 1) }
    ensures on_its_way { play (end_of adder_reloaded (delivery ∷ run ∷ [])) (event.Fail 1) ≡ Would (SecondStop 1) }
    ensures stops { (end_of adder_renewed (event.Fail 1 ∷ [])).world.stopped ≡ false ∷ true ∷ [] }
    ensures shown { (end_of adder_renewed second_takeover).world.shown ≡ reply 0 (pos 5) ∷ [] }
    ensures owed { (end_of adder_renewed second_takeover).wires.owed ≡ [] }
{}

/// A processor that runs isn't loaded again, nor is one that a node which runs hasn't marked yet.
pub fn only_a_marked_processor_is_loaded_again()
    ensures runs { play adder_at_boot (event.Reload 0) ≡ Skips }
    ensures unmarked { play (end_of adder_at_boot (event.Fail 0 ∷ event.Tick 1 ∷ [])) (event.Reload 0) ≡ Skips }
    ensures again { play adder_reloaded (event.Reload 0) ≡ Skips }
    ensures nowhere { play adder_at_boot (event.Reload 2) ≡ Skips }
{}
