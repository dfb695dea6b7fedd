ghost use Rattle.std.specs.Prelude.{◌≡◌, ◌+◌, ◌++◌, ◌∷◌, [], ℕ, true, false, Bool, Some, None, replicate};
ghost use Rattle.machine_states.specs.States.{Makes, Skips};
ghost use Rattle.schedule.specs.declared.bus_name.BusName.TheVariants as bus;
ghost use Rattle.schedule.specs.declared.event.Event.TheVariants.{Deliver, Lose, Repeat};
ghost use Rattle.computed_changes.specs.Handed.{handed_done};
ghost use Rattle.world_semantics.specs.Running.{Done};
ghost use Rattle.letters.specs.Routes.{Letter};
ghost use Rattle.message_wires.specs.Play.{MachineState, after_done, is_admitted, play};
ghost use Rattle.message_wires.specs.Wires.{Sent, Wires, has_room, is_current, wires_after_post, put_on};
ghost use Rattle.message_wires.specs.Wires.{without_number};
ghost use Rattle.machine_guards.specs.States.{with_bus, with_owed};

/// What comes, is lost or is repeated is the packet at its position, counted from 0. It is taken off the bus, and those
/// behind it move up; what is repeated goes to the end once more. Behind the last packet there is none, and on bus Y
/// never.
pub fn a_packet_is_that_at_its_position()
    ensures lost { (s : MachineState) (a b c : Sent)
        → play (with_bus (a ∷ b ∷ c ∷ []) s) (Lose bus.X 1) ≡ Makes (with_bus (a ∷ c ∷ []) s) }
    ensures repeated { (s : MachineState) (a b c : Sent)
        → play (with_bus (a ∷ b ∷ c ∷ []) s) (Repeat bus.X 1) ≡ Makes (with_bus (a ∷ b ∷ c ∷ b ∷ []) s) }
    ensures dropped { (s : MachineState) (a b c : Sent) → is_admitted s b.letter ≡ false
        → play (with_bus (a ∷ b ∷ c ∷ []) s) (Deliver bus.X 1) ≡ Makes (with_bus (a ∷ c ∷ []) s) }
    ensures old { (s : MachineState) (a b c : Sent) → is_current s.wires.before b ≡ false
        → play (with_bus (a ∷ b ∷ c ∷ []) s) (Deliver bus.X 1) ≡ Makes (with_bus (a ∷ c ∷ []) s) }
    ensures behind { (s : MachineState) (a b c : Sent) → play (with_bus (a ∷ b ∷ c ∷ []) s) (Lose bus.X 3) ≡ Skips }
    ensures other_bus { (s : MachineState) (a b c : Sent) → play (with_bus (a ∷ b ∷ c ∷ []) s) (Lose bus.Y 1) ≡ Skips }
{}

/// What comes in and isn't old is handed over at its receiver and owed no more, whether it changes anything there or
/// not.
pub fn what_comes_in_is_handed_over()
    ensures changed { (s : MachineState) (a b c : Sent) (done : Done) → is_current s.wires.before b ≡ true
        → is_admitted s b.letter ≡ true
        → handed_done s.site b.letter.receiver b.letter.message s.world ≡ Some done
        → play (with_bus (a ∷ b ∷ c ∷ []) s) (Deliver bus.X 1)
        ≡ Makes (after_done (with_owed (without_number b.number s.wires.owed) (with_bus (a ∷ c ∷ []) s)) done) }
    ensures unchanged { (s : MachineState) (a b c : Sent) → is_current s.wires.before b ≡ true
        → is_admitted s b.letter ≡ true
        → handed_done s.site b.letter.receiver b.letter.message s.world ≡ None
        → play (with_bus (a ∷ b ∷ c ∷ []) s) (Deliver bus.X 1)
        ≡ Makes (with_owed (without_number b.number s.wires.owed) (with_bus (a ∷ c ∷ []) s)) }
{}

/// A bus with 4,095 packets has room for one more, and one with 4,096 has none: then what is sent is owed and has no
/// packet.
pub fn a_bus_of_letters_has_its_room()
    ensures one_more { (packet : Sent) → has_room (replicate 4095 packet) ≡ true }
    ensures full { (packet : Sent) → has_room (replicate 4096 packet) ≡ false }
    ensures at_the_end { (packet : Sent) (a b : Sent) → put_on packet (a ∷ b ∷ []) ≡ a ∷ b ∷ packet ∷ [] }
    ensures owed { (letter : Letter) (wires : Wires) → has_room wires.bus ≡ false
        → wires_after_post letter wires ≡ record {
          count = wires.count + 1;
          bus = wires.bus;
          owed = wires.owed ++ record { number = wires.count; letter = letter } ∷ [];
          before = wires.before;
        } }
{}
