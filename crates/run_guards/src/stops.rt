ghost use Rattle.std.specs.Prelude.{◌≡◌, [], ◌∷◌, ◌++◌, true, false, None, replicate, take};
ghost use Rattle.schedule.specs.declared.event.Event.TheVariants as event;
ghost use Rattle.schedule.specs.declared.line.Line.TheVariants.{Drain, One, Until};
ghost use Rattle.player.specs.Played.{idle, packets, round, shown};
ghost use Rattle.run_guards.specs.Asked.{events_of, stop, three, three_with};

/// A stop comes just before the event that so many events precede, and that event comes after it. No stop comes where
/// no such event is to come.
pub fn a_stop_comes_just_before_its_event()
    ensures none { three_with None ≡ event.Enter 0 ∷ event.Enter 0 ∷ event.Run 0 ∷ [] }
    ensures first { three_with (stop 0) ≡ event.Fail 1 ∷ event.Enter 0 ∷ event.Enter 0 ∷ event.Run 0 ∷ [] }
    ensures second { three_with (stop 1) ≡ event.Enter 0 ∷ event.Fail 1 ∷ event.Enter 0 ∷ event.Run 0 ∷ [] }
    ensures last { three_with (stop 2) ≡ event.Enter 0 ∷ event.Enter 0 ∷ event.Fail 1 ∷ event.Run 0 ∷ [] }
    ensures at_the_end { three_with (stop 3) ≡ event.Enter 0 ∷ event.Enter 0 ∷ event.Run 0 ∷ [] }
    ensures past_the_end { three_with (stop 4) ≡ event.Enter 0 ∷ event.Enter 0 ∷ event.Run 0 ∷ [] }
    ensures no_event { events_of [] (stop 0) (replicate 9 idle) ≡ [] }
    ensures no_round { events_of (Drain 1 ∷ []) (stop 0) (replicate 9 idle) ≡ [] }
    ensures next_line { events_of (Drain 1 ∷ One (event.Run 0) ∷ []) (stop 0) (replicate 9 idle)
        ≡ event.Fail 1 ∷ event.Run 0 ∷ [] }
{}

/// Which event comes after a stop is told by what is counted before the stop: it comes though the machine is idle then,
/// or the count that its line waits for is reached. The events behind it go by what is counted before each of them.
pub fn a_held_event_comes_whatever_is_counted()
    ensures idle { events_of (Drain 1 ∷ []) (stop 0) (packets 2 1 ∷ replicate 20 idle) ≡ event.Fail 1 ∷ round }
    ensures later { events_of (Drain 2 ∷ []) (stop 9) (replicate 10 (packets 2 1) ++ replicate 20 idle)
        ≡ round ++ event.Fail 1 ∷ round }
    ensures reached { events_of (Until true 3 1 ∷ One (event.Run 0) ∷ []) (stop 1)
        (shown 2 0 ∷ shown 2 0 ∷ replicate 9 (shown 3 0))
        ≡ event.Enter 0 ∷ event.Fail 1 ∷ event.Enter 1 ∷ event.Run 0 ∷ [] }
    ensures reached_before { events_of (Until true 3 1 ∷ One (event.Run 0) ∷ []) (stop 1)
        (shown 2 0 ∷ replicate 9 (shown 3 0))
        ≡ event.Enter 0 ∷ event.Fail 1 ∷ event.Run 0 ∷ [] }
{}
