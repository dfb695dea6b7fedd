ghost use Rattle.std.specs.Prelude.{◌≡◌, ◌≤◌, ◌<◌, ℕ, true, List, Option, Some, length};
ghost use Rattle.std.specs.List.{list_all};
ghost use Rattle.gd_words.specs.declared.limits.TheConstants.{MOST_PROCESSORS};
ghost use Rattle.schedule.specs.declared.event.Counts.{Counts};
ghost use Rattle.schedule.specs.declared.event.Event.{Event};
ghost use Rattle.schedule.specs.declared.event.Event.TheVariants.{Tick};
ghost use Rattle.schedule.specs.declared.line.Line.{Line};
ghost use Rattle.player.specs.declared.stop.ProcessorStop.{ProcessorStop};
ghost use Rattle.player.specs.declared.standing.Sizes.{Sizes};
ghost use Rattle.player.specs.declared.standing.Place.{Place};
ghost use Rattle.player.specs.declared.standing.Place.TheVariants.{Before};
ghost use Rattle.agendas.specs.Agendas.{Agenda, Plan, PlaysOn, next_plan};
ghost use Rattle.calm_schedules.specs.Calm.{is_calm_line};
ghost use Rattle.round_laws.specs.Buses.{HasBuses};
ghost use Rattle.round_laws.specs.Rounds.{TurnsIn};
ghost use Rattle.round_laws.specs.Stretches.{CountsBuses};
ghost use Rattle.alive_rounds.specs.Fresh.{IsFresh};
ghost use Rattle.alive_rounds.specs.Runs.{CountsShown, NumberedMachine, PlaysTo};
ghost use Rattle.alive_rounds.specs.Watched.{IsWatched, Sight};

/// Every turn of a round keeps I'm-alive packets fresh, on each machine of no more processors than a site may have,
/// whose nodes watch each other.
pub fn a_turn_keeps_alive_packets_fresh()
    ensures { (sizes : Sizes) (w : Sight ℕ ℕ) (machine : NumberedMachine)
        → IsWatched sizes.processors w (PlaysTo machine)
        → sizes.processors ≤ MOST_PROCESSORS → HasBuses w.buses (PlaysTo machine) → (s : ℕ) (event : Event)
        (next : ℕ) (from to : Place) → TurnsIn sizes w.buses s from event to → PlaysTo machine s event next
        → IsFresh sizes.processors w from s → IsFresh sizes.processors w to next }
{}

/// On such a machine, no tick of a calm schedule stops a processor.
pub fn a_calm_schedule_stops_nobody_at_a_tick()
    ensures { (sizes : Sizes) (w : Sight ℕ ℕ) (machine : NumberedMachine) (counts : ℕ → Counts)
        → IsWatched sizes.processors w (PlaysTo machine) → sizes.processors ≤ MOST_PROCESSORS
        → HasBuses w.buses (PlaysTo machine)
        → CountsBuses w.buses counts → CountsShown (PlaysTo machine) counts
        → (start : ℕ) (lines : List Line) (stop : Option ProcessorStop) → list_all is_calm_line lines ≡ true
        → IsFresh sizes.processors w Before start → (events : List Event) (agenda : Agenda) (s : ℕ)
        → PlaysOn sizes counts (PlaysTo machine) start lines stop events agenda s
        → (plan : Plan) → next_plan sizes (length events) (counts s) agenda ≡ Some plan
        → (next : ℕ) → PlaysTo machine s plan.event next → (node p : ℕ) → plan.event ≡ Tick node
        → p < sizes.processors → w.runs s p ≡ true → w.runs next p ≡ true }
{}
