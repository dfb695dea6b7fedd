ghost use Rattle.std.specs.Prelude.{◌≡◌, [], ◌∷◌, ◌++◌, ℕ, replicate, true};
ghost use Rattle.schedule.specs.declared.bus_name.BusName.TheVariants as bus;
ghost use Rattle.schedule.specs.declared.event.Event.TheVariants as event;
ghost use Rattle.schedule.specs.declared.line.Line.TheVariants.{Drain, Mix, One, Until};
ghost use Rattle.player.specs.declared.standing.MixedPlace.TheVariants as place;
ghost use Rattle.player.specs.Mixes.{handled, turn};
ghost use Rattle.player.specs.Played.{alive_of, events_of, mixed_from_42, packets, processes, round, ticks};

/// Of five packets the words that are drawn from 42 name the third, to be lost, then the third of four, to be repeated,
/// then that of three, the second of two and the last. Then come those of bus Y, the second and the first.
pub fn a_word_names_its_packet()
    ensures { events_of (processes 1) (Mix 42 1) (replicate 30 (packets 5 2))
        ≡ mixed_from_42 ++ event.Lose bus.X 2 ∷ event.Repeat bus.X 2 ∷ event.Deliver bus.X 2 ∷ event.Deliver bus.X 2
        ∷ event.Deliver bus.X 1 ∷ event.Deliver bus.X 0
        ∷ event.Deliver bus.Y 1 ∷ event.Deliver bus.Y 0 ∷ ticks }
{}

/// Of the eight choices one repeats a packet, which is delivered then, and one loses it. All others deliver it.
pub fn six_of_eight_choices_deliver()
    ensures repeat { (k left draws : ℕ) → handled bus.X k 0 left draws
        ≡ turn (event.Repeat bus.X k) (place.Repeated bus.X k left) draws }
    ensures lose { (k left draws : ℕ) → handled bus.X k 1 left draws
        ≡ turn (event.Lose bus.X k) (place.Delivers bus.X left) draws }
    ensures two { (k left draws : ℕ) → handled bus.X k 2 left draws
        ≡ turn (event.Deliver bus.X k) (place.Delivers bus.X left) draws }
    ensures four { (k left draws : ℕ) → handled bus.X k 4 left draws
        ≡ turn (event.Deliver bus.X k) (place.Delivers bus.X left) draws }
    ensures seven { (k left draws : ℕ) → handled bus.Y k 7 left draws
        ≡ turn (event.Deliver bus.Y k) (place.Delivers bus.Y left) draws }
{}

/// On all other lines an alive packet is treated as any other: it is delivered in rounds, and lost where the line says
/// so.
pub fn alive_packets_are_as_others_elsewhere()
    ensures drain { events_of (processes 1) (Drain 1) (replicate 30 (alive_of 1)) ≡ round }
    ensures until { events_of (processes 1) (Until true 3 1) (replicate 30 (alive_of 1)) ≡ round }
    ensures single { events_of (processes 1) (One (event.Lose bus.X 0)) (replicate 9 (alive_of 1))
        ≡ event.Lose bus.X 0 ∷ [] }
{}
