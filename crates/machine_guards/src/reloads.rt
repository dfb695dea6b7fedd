ghost use Rattle.std.specs.Prelude.{◌≡◌, ◌∷◌, [], ℕ, true, false, Some, None};
ghost use Rattle.schedule.specs.declared.bus_name.BusName.TheVariants as bus;
ghost use Rattle.schedule.specs.declared.event.Event.TheVariants.{Deliver, Enter, Fail, Reload, Tick};
ghost use Rattle.machine_states.specs.States.{Makes, Skips};
ghost use Rattle.computed_changes.specs.Stopped.{reload_done};
ghost use Rattle.world_semantics.specs.Messages.{Message};
ghost use Rattle.world_semantics.specs.Running.{Done};
ghost use Rattle.message_wires.specs.Examples.{asks, buses_from, end_of};
ghost use Rattle.message_wires.specs.Play.{MachineState, play};
ghost use Rattle.message_wires.specs.Wires.{Wires, is_current, wires_after_reload};
ghost use Rattle.machine_guards.specs.States.{between, discs_at_boot, loaded_after, numbered, owing, with_bus};

/// A letter is old that was sent before its sender or its receiver was loaded last. The node of the terminals is never
/// loaded again.
pub fn what_is_older_than_a_load_is_told()
    ensures sender { (message : Message) → is_current (3 ∷ 0 ∷ []) (numbered 2 0 1 message) ≡ false }
    ensures receiver { (message : Message) → is_current (3 ∷ 0 ∷ []) (numbered 2 16 0 message) ≡ false }
    ensures first { (message : Message) → is_current (3 ∷ 0 ∷ []) (numbered 3 0 16 message) ≡ true }
    ensures others { (message : Message) → is_current (3 ∷ 0 ∷ []) (numbered 2 1 16 message) ≡ true }
{}

/// A reload forgets what is owed from the processor and to it, by itself too, and nothing else. All letters that were
/// sent from it or to it are old then, and no other ones; what is on the bus stays there.
pub fn a_reload_forgets_what_is_owed()
    ensures owed { (message : Message) → wires_after_reload 1
        (owing (between 0 1 message ∷ between 0 2 message ∷ between 1 16 message ∷ between 1 1 message
        ∷ between 16 0 message ∷ []))
        ≡ record {
          count = 9;
          bus = [];
          owed = between 0 2 message ∷ between 16 0 message ∷ [];
          before = 0 ∷ 9 ∷ 0 ∷ [];
        } }
    ensures old { (message : Message) → is_current (wires_after_reload 1 (owing [])).before (numbered 8 1 0 message)
        ≡ false }
    ensures young { (message : Message) → is_current (wires_after_reload 1 (owing [])).before (numbered 9 1 0 message)
        ≡ true }
    ensures bus { (processor : ℕ) (wires : Wires) → (wires_after_reload processor wires).bus ≡ wires.bus }
{}

/// A reload changes the world as is computed, and the wires; where it can't be it is skipped.
pub fn a_reload_is_played_where_it_can_be()
    ensures made { (s : MachineState) (processor : ℕ) (done : Done)
        → reload_done s.site processor s.world ≡ Some done
        → play s (Reload processor)
        ≡ Makes (record s { world = done.world; wires = wires_after_reload processor s.wires }) }
    ensures skipped { (s : MachineState) (processor : ℕ) → reload_done s.site processor s.world ≡ None
        → play s (Reload processor) ≡ Skips }
    ensures unmarked { play (end_of discs_at_boot (Fail 1 ∷ Tick 0 ∷ Tick 16 ∷ [])) (Reload 1) ≡ Skips }
    ensures before { (end_of discs_at_boot
        (Enter 0 ∷ Enter 1 ∷ Fail 1 ∷ Tick 0 ∷ Tick 2 ∷ Tick 16 ∷ Reload 1 ∷ [])).wires.before ≡ 0 ∷ 2 ∷ 0 ∷ [] }
{}

/// So where both requests are on the bus and processor 0 is loaded again, the one to it is dropped: its disc is asked
/// at the other copy.
pub fn an_old_letter_is_not_handed_over()
    ensures dropped { (s : MachineState) (message : Message)
        → play (loaded_after (3 ∷ 0 ∷ []) (with_bus (numbered 2 0 1 message ∷ []) s)) (Deliver bus.X 0)
        ≡ Makes (loaded_after (3 ∷ 0 ∷ []) (with_bus [] s)) }
    ensures buses { buses_from discs_at_boot
        (Enter 0 ∷ Enter 1 ∷ Fail 0 ∷ Tick 1 ∷ Tick 2 ∷ Tick 16 ∷ Reload 0 ∷ Deliver bus.X 0 ∷ [])
        ≡ (asks 0 ∷ []) ∷ (asks 0 ∷ asks 2 ∷ []) ∷ (asks 0 ∷ asks 2 ∷ []) ∷ (asks 0 ∷ asks 2 ∷ [])
        ∷ (asks 0 ∷ asks 2 ∷ []) ∷ (asks 0 ∷ asks 2 ∷ asks 1 ∷ []) ∷ (asks 0 ∷ asks 2 ∷ asks 1 ∷ [])
        ∷ (asks 2 ∷ asks 1 ∷ []) ∷ [] }
{}
