ghost use Rattle.std.specs.Prelude.{◌≡◌, true, false, [], ◌∷◌, ◌++◌, replicate, take};
ghost use Rattle.schedule.specs.declared.bus_name.BusName.TheVariants as bus;
ghost use Rattle.schedule.specs.declared.event.Event.TheVariants as event;
ghost use Rattle.schedule.specs.declared.line.Line.TheVariants.{One, Many, Drain, Mix, Mute, Until};
ghost use Rattle.player.specs.Mixes.{first_draws, word, drawn};
ghost use Rattle.player.specs.Played.{events_of, processes, packets, idle, shown, alive_of, ticks, round, lost_round};
ghost use Rattle.player.specs.Played.{mixed_from_42, mixed_to_the_end};

/// A line of one event gives it once, and one of many so many times, whatever the counts.
pub fn single_events_are_given_so_often()
    ensures one { events_of (processes 1) (One (event.Fail 1)) (replicate 9 idle) ≡ event.Fail 1 ∷ [] }
    ensures many { events_of (processes 1) (Many (event.Enter 1) 3) (replicate 9 idle) ≡ replicate 3 (event.Enter 1) }
    ensures none { events_of (processes 1) (Many (event.Enter 1) 0) (replicate 9 idle) ≡ [] }
{}

/// A drain makes so many rounds, and none that begins idle; that the machine is idle within a round doesn't end it.
pub fn a_drain_makes_rounds_until_idle()
    ensures two { events_of (processes 1) (Drain 2) (replicate 30 (packets 2 1)) ≡ round ++ round }
    ensures none { events_of (processes 1) (Drain 0) (replicate 30 (packets 2 1)) ≡ [] }
    ensures at_once { events_of (processes 1) (Drain 2) (replicate 30 idle) ≡ [] }
    ensures within { events_of (processes 1) (Drain 2) (packets 2 1 ∷ replicate 30 idle) ≡ round }
    ensures third { events_of (processes 1) (Drain 9) (replicate 18 (packets 2 1) ++ replicate 30 idle)
        ≡ round ++ round }
{}

/// A bus delivers as often as there were packets when its part began, however many there are before and after; parts
/// with nothing in them are passed over.
pub fn packets_are_counted_as_their_part_begins()
    ensures later { events_of (processes 1) (Drain 1)
        (replicate 3 (packets 0 0) ++ packets 2 0 ∷ packets 9 9 ∷ packets 9 1 ∷ replicate 9 (packets 9 9)) ≡ round }
    ensures empty { events_of (processes 1) (Drain 1) (replicate 9 (packets 0 0))
        ≡ event.Enter 0 ∷ event.Enter 1 ∷ event.Run 0 ∷ ticks }
    ensures nobody { events_of (record (processes 0) { terminals = 0 }) (Drain 1) (replicate 9 (packets 0 1))
        ≡ event.Deliver bus.Y 0 ∷ ticks }
{}

/// A line that waits for a count makes no event where it is reached before, and ends right after the event at which it
/// is; writes and replies are told apart.
pub fn a_count_ends_its_line()
    ensures before { events_of (processes 1) (Until true 3 2) (replicate 30 (shown 3 0)) ≡ [] }
    ensures zero { events_of (processes 1) (Until false 0 2) (replicate 30 (shown 0 0)) ≡ [] }
    ensures within { events_of (processes 1) (Until true 3 2) (replicate 4 (shown 2 9) ++ replicate 30 (shown 3 9))
        ≡ take 4 round }
    ensures replies { events_of (processes 1) (Until false 3 2) (replicate 13 (shown 9 2) ++ replicate 30 (shown 9 4))
        ≡ round ++ take 4 round }
    ensures never { events_of (processes 1) (Until true 3 2) (replicate 30 (shown 2 3)) ≡ round ++ round }
    ensures when_idle { events_of (processes 1) (Until true 3 2) (packets 2 1 ∷ replicate 30 idle) ≡ round }
{}

/// A muted node's alive packets are lost and no others, and such a line makes all of its rounds.
pub fn alive_packets_of_a_muted_node_are_lost()
    ensures lost { events_of (processes 1) (Mute 1 2) (replicate 30 (alive_of 1)) ≡ lost_round ++ lost_round }
    ensures another { events_of (processes 1) (Mute 1 1) (replicate 30 (alive_of 0)) ≡ round }
    ensures not_alive { events_of (processes 0) (Mute 0 1) (replicate 30 (packets 0 1))
        ≡ event.Enter 0 ∷ event.Enter 1 ∷ event.Deliver bus.Y 0 ∷ ticks }
    ensures when_idle { events_of (processes 1) (Mute 1 2) (replicate 30 idle) ≡ round ++ round }
{}

/// The words that are drawn from 42 are those that the generator's authors print for it.
pub fn words_are_those_of_the_generator()
    ensures first { word (first_draws 42) ≡ 0xa15c02b7 }
    ensures second { word (drawn (first_draws 42)) ≡ 0x7b47f409 }
    ensures third { word (drawn (drawn (first_draws 42))) ≡ 0xba1d3330 }
    ensures fourth { word (drawn (drawn (drawn (first_draws 42)))) ≡ 0x83d2f293 }
{}

/// By these words three runs are drawn, then the second of two packets, to be lost unless it is an alive one, then the
/// other, to be repeated, then that of bus Y, to be delivered. A process for which none is drawn doesn't run. All
/// rounds are made.
pub fn mixed_rounds_are_drawn()
    ensures lost { events_of (processes 1) (Mix 42 1) (replicate 30 (packets 2 1))
        ≡ mixed_from_42 ++ event.Lose bus.X 1 ∷ mixed_to_the_end }
    ensures spared { events_of (processes 1) (Mix 42 1) (replicate 30 (alive_of 1))
        ≡ mixed_from_42 ++ event.Deliver bus.X 1 ∷ mixed_to_the_end }
    ensures passed_over { events_of (processes 4) (Mix 42 1) (replicate 30 (packets 0 0))
        ≡ mixed_from_42 ++ event.Run 1 ∷ replicate 3 (event.Run 3) ++ ticks }
    ensures two { take 17 (events_of (processes 1) (Mix 42 2) (replicate 30 idle))
        ≡ mixed_from_42 ++ event.Lose bus.X 1 ∷ mixed_to_the_end ++ mixed_from_42 }
    ensures none { events_of (processes 1) (Mix 42 0) (replicate 30 (packets 2 1)) ≡ [] }
{}
