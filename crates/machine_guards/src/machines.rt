ghost use Rattle.std.specs.Prelude.{◌≡◌, ◌≢◌, ◌+◌, ◌++◌, ◌∷◌, [], ℕ, true, false, Some, None, slice_get};
ghost use Rattle.machine_states.specs.declared.effect.Effect.{Effect};
ghost use Rattle.machine_states.specs.declared.effect.Effect.TheVariants.{Done, Skipped};
ghost use Rattle.machine_states.specs.declared.effect.Effect.TheVariants.{WouldLoseDisc, WouldStopSecond};
ghost use Rattle.machine_states.specs.States.{DiscLoss, Makes, SecondStop, Settles, Skips, Would};
ghost use Rattle.schedule.specs.declared.bus_name.BusName.TheVariants as bus;
ghost use Rattle.schedule.specs.declared.event.Event.TheVariants.{Fail, Lose};
ghost use Rattle.computed_changes.specs.Stopped.{down_done, stopped_world};
ghost use Rattle.message_wires.specs.Play.{MachineState, play};
ghost use Rattle.message_wires.specs.Wires.{Wires, wires_after_posts, has_room};
ghost use Rattle.letters.specs.Routes.{Letter};
ghost use Rattle.world_semantics.specs.declared.role.Role.TheVariants.{Acting, Gone};
ghost use Rattle.world_semantics.specs.Rules.{stopped_copy, stopped_pair, taken_over};
ghost use Rattle.world_semantics.specs.World.{Copy, Pair, World, is_whole};

/// A machine that did what an event makes says so, and stands there; else it stays, and says which of the two causes it
/// was.
pub fn an_answer_is_that_of_what_is_played()
    ensures made { (next before after : MachineState) (answer : Effect) → Settles (Makes next) before answer after
        → (answer ≡ Done) × (after ≡ next) }
    ensures skipped { (before after : MachineState) (answer : Effect)
        → Settles {Wires = Wires} Skips before answer after → (answer ≡ Skipped) × (after ≡ before) }
    ensures second { (processor : ℕ) (before after : MachineState) (answer : Effect)
        → Settles {Wires = Wires} (Would (SecondStop processor)) before answer after
        → (answer ≡ WouldStopSecond processor) × (after ≡ before) }
    ensures lost { (process : ℕ) (before after : MachineState) (answer : Effect)
        → Settles {Wires = Wires} (Would (DiscLoss process)) before answer after
        → (answer ≡ WouldLoseDisc process) × (after ≡ before) }
{}

/// A stop in a whole world is done, each process of the site is told of it, and the copies in that processor are gone,
/// and no others.
pub fn a_stop_leaves_no_process_out()
    ensures stop { (s : MachineState) (processor : ℕ) → slice_get s.world.stopped processor ≡ Some false
        → is_whole s.world ≡ true
        → play s (Fail processor) ≡ Makes (record s { world = stopped_world processor s.world }) }
    ensures each { (w : World) (processor number : ℕ) (pair : Pair) → slice_get w.processes number ≡ Some pair
        → slice_get (stopped_world processor w).processes number ≡ Some (stopped_pair processor pair) }
    ensures gone { (processor : ℕ) (copy : Copy) → copy.processor ≡ processor
        → (stopped_copy processor copy).role ≡ Gone }
    ensures others { (processor : ℕ) (copy : Copy) → copy.processor ≢ processor → stopped_copy processor copy ≡ copy }
{}

/// A processor that runs is marked by nobody, so nothing takes over before a stop.
pub fn nothing_is_marked_before_it_stops()
    ensures { (node processor : ℕ) (w : World) → slice_get w.stopped processor ≡ Some false
        → down_done node processor w ≡ None }
{}

/// In a whole world no stop is a second one; and where the world isn't whole each stop of a processor that runs is, and
/// that of another one is skipped.
pub fn a_second_stop_is_one_in_parts()
    ensures whole { (s : MachineState) (processor other : ℕ) → is_whole s.world ≡ true
        → play s (Fail processor) ≢ Would (SecondStop other) }
    ensures parts { (s : MachineState) (processor : ℕ) → slice_get s.world.stopped processor ≡ Some false
        → is_whole s.world ≡ false
        → play s (Fail processor) ≡ Would (SecondStop processor) }
    ensures stopped { (s : MachineState) (processor : ℕ) → slice_get s.world.stopped processor ≡ Some true
        → play s (Fail processor) ≡ Skips }
    ensures absent { (s : MachineState) (processor : ℕ) → slice_get s.world.stopped processor ≡ None
        → play s (Fail processor) ≡ Skips }
{}

/// What is sent is owed and goes to the end of the bus, and what is lost is taken off the bus and stays owed.
pub fn what_is_lost_stays_owed()
    ensures sent { (letter : Letter) (wires : Wires) → has_room wires.bus ≡ true
        → wires_after_posts (letter ∷ []) wires ≡ record {
          count = wires.count + 1;
          bus = wires.bus ++ record { number = wires.count; letter = letter } ∷ [];
          owed = wires.owed ++ record { number = wires.count; letter = letter } ∷ [];
          before = wires.before;
        } }
    ensures lost { (s next : MachineState) (k : ℕ) → play s (Lose bus.X k) ≡ Makes next
        → (next.wires.owed ≡ s.wires.owed) × (next.world ≡ s.world) }
{}

/// A copy that takes over acts with the core that its last checkpoint left, from the base on, in the next era, and
/// holds nothing.
pub fn a_takeover_goes_on_from_the_last_checkpoint()
    ensures core { (base : ℕ) (copy : Copy) → (taken_over base copy).core ≡ copy.core }
    ensures place { (base : ℕ) (copy : Copy)
        → ((taken_over base copy).position ≡ base) × ((taken_over base copy).held ≡ []) }
    ensures role { (base : ℕ) (copy : Copy)
        → ((taken_over base copy).role ≡ Acting) × ((taken_over base copy).era ≡ copy.era + 1) }
{}
