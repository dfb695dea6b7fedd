ghost use Rattle.std.specs.Prelude.{◌≡◌, ◌∷◌, [], true, false};
ghost use Rattle.schedule.specs.declared.bus_name.BusName.TheVariants as bus;
ghost use Rattle.schedule.specs.declared.event.Event.TheVariants.{Enter, Fail, Lose, Tick};
ghost use Rattle.world_semantics.specs.Messages.{Message};
ghost use Rattle.message_wires.specs.Examples.{asks, buses_from};
ghost use Rattle.message_wires.specs.Wires.{put_again};
ghost use Rattle.machine_guards.specs.States.{discs_at_boot, sent_to};

/// What is owed and has no packet is put on the bus again at its sender's tick, the oldest first, where its receiver
/// runs.
pub fn a_tick_puts_the_oldest_first()
    ensures both { (message other : Message)
        → put_again (false ∷ false ∷ []) 16 (sent_to 1 4 message ∷ sent_to 0 5 other ∷ []) []
        ≡ sent_to 1 4 message ∷ sent_to 0 5 other ∷ [] }
    ensures on_the_bus { (message other : Message)
        → put_again (false ∷ false ∷ []) 16 (sent_to 1 4 message ∷ sent_to 0 5 other ∷ []) (sent_to 0 5 other ∷ [])
        ≡ sent_to 0 5 other ∷ sent_to 1 4 message ∷ [] }
    ensures stopped { (message other : Message)
        → put_again (false ∷ true ∷ []) 16 (sent_to 1 4 message ∷ sent_to 0 5 other ∷ []) [] ≡ sent_to 0 5 other ∷ [] }
    ensures another { (message other : Message)
        → put_again (false ∷ false ∷ []) 0 (sent_to 1 4 message ∷ sent_to 0 5 other ∷ []) [] ≡ [] }
{}

/// A tick marks first, and then puts on the bus again what is owed. So where the requests to two discs were lost and
/// processor 0 stops, the new request to the disc that was lost goes before the old one to the other disc.
pub fn a_tick_marks_before_it_puts_again()
    ensures { buses_from discs_at_boot (Enter 0 ∷ Enter 1 ∷ Lose bus.X 1 ∷ Lose bus.X 0 ∷ Fail 0 ∷ Tick 16 ∷ [])
        ≡ (asks 0 ∷ []) ∷ (asks 0 ∷ asks 2 ∷ []) ∷ (asks 0 ∷ []) ∷ [] ∷ [] ∷ (asks 1 ∷ asks 2 ∷ []) ∷ [] }
{}
