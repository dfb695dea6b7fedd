ghost use Rattle.std.specs.Prelude.{◌≡◌, ◌<◌, true, false, List, [], ◌∷◌, length, Some};
ghost use Rattle.schedule.specs.declared.event.Event.TheVariants.{Tick};
ghost use Rattle.packet_words.specs.declared.packet.Packet.{Packet};
ghost use Rattle.packet_wires.specs.Examples.{adder_at_boot};
ghost use Rattle.packet_wires.specs.Play.{IsClear};
ghost use Rattle.packet_wires.specs.Sights.{end_of};
ghost use Rattle.packet_rounds.specs.Examples.{four_ticks, has_arrived, three_ticks, with_buses};

/// The tick of one of two processors sends one packet over each bus. It is clear where both have room for one more, and
/// not where one of them is full.
pub fn a_tick_is_clear_where_both_buses_have_room()
    ensures room { (x y : List Packet) → length x < 4096 → length y < 4096 → IsClear (with_buses x y) (Tick 0) }
    ensures full_x { (x y : List Packet) → length x ≡ 4096 → IsClear (with_buses x y) (Tick 0) → ⊥ }
    ensures full_y { (x y : List Packet) → length y ≡ 4096 → IsClear (with_buses x y) (Tick 0) → ⊥ }
{}

/// A processor to which nothing comes from the other one stops that at its fourth tick, though it runs.
pub fn who_hears_nothing_stops_one_that_runs()
    ensures three { (end_of adder_at_boot three_ticks).world.stopped ≡ false ∷ false ∷ [] }
    ensures four { (end_of adder_at_boot four_ticks).world.stopped ≡ false ∷ true ∷ [] }
{}

/// Three rounds don't always end a piece: one that was lost as they began is outstanding after three, and has ended
/// after four.
pub fn a_lost_piece_needs_four_rounds()
    ensures three { has_arrived 3 ≡ Some false }
    ensures four { has_arrived 4 ≡ Some true }
{}
