ghost use Rattle.std.specs.Prelude.{◌≡◌, ◌≤◌, ◌<◌, ℕ, true, false, List, Option, Some, length};
ghost use Rattle.std.specs.List.{list_all};
ghost use Rattle.std.specs.Option.{is_some};
ghost use Rattle.gd_words.specs.declared.limits.TheConstants.{MOST_PROCESSORS};
ghost use Rattle.tal_tree.specs.declared.site.Site.{Site};
ghost use Rattle.schedule.specs.declared.event.Counts.{Counts};
ghost use Rattle.schedule.specs.declared.event.Event.{Event};
ghost use Rattle.schedule.specs.declared.line.Line.{Line};
ghost use Rattle.player.specs.declared.stop.ProcessorStop.{ProcessorStop};
ghost use Rattle.agendas.specs.Agendas.{Agenda, Plan, PlaysOn, next_plan};
ghost use Rattle.calm_schedules.specs.Calm.{IsCalm, is_calm_line, is_stop};
ghost use Rattle.world_semantics.specs.World.{is_running};
ghost use Rattle.machine_states.specs.States.{Harm, Would};
ghost use Rattle.packet_wires.specs.Play.{Packeted, packeted_at_boot, play};
ghost use Rattle.round_laws.specs.Stretches.{CountsBuses};
ghost use Rattle.packet_rounds.specs.Played.{IsClearPlay, buses_of, sizes_of};
ghost use Rattle.calm_runs.specs.Sights.{CountsOfShown};

/// All lines of a schedule are calm, and all its events so far were clear. Then the next one, if it is clear and no
/// stop, leaves each processor running that runs.
pub fn a_calm_schedule_stops_nobody_that_runs()
    ensures { (site : Site) → site.processors ≤ MOST_PROCESSORS → (counts : Packeted → Counts)
        → CountsBuses buses_of counts → CountsOfShown counts
        → (lines : List Line) (stop : Option ProcessorStop) → list_all is_calm_line lines ≡ true
        → (events : List Event) (agenda : Agenda) (s : Packeted)
        → PlaysOn (sizes_of site) counts IsClearPlay (packeted_at_boot site) lines stop events agenda s
        → (plan : Plan) → next_plan (sizes_of site) (length events) (counts s) agenda ≡ Some plan
        → (next : Packeted) → IsClearPlay s plan.event next → is_stop plan.event ≡ false
        → (p : ℕ) → p < site.processors → is_running s.world.stopped p ≡ true
        → is_running next.world.stopped p ≡ true }
{}

/// Where a schedule is calm and all its events so far were clear, the next one isn't one that would stop a second
/// processor or lose a disc.
pub fn a_calm_schedule_does_no_harm()
    ensures { (site : Site) → site.processors ≤ MOST_PROCESSORS → (counts : Packeted → Counts)
        → CountsBuses buses_of counts → CountsOfShown counts
        → (lines : List Line) (stop : Option ProcessorStop) → IsCalm lines (is_some stop)
        → (events : List Event) (agenda : Agenda) (s : Packeted)
        → PlaysOn (sizes_of site) counts IsClearPlay (packeted_at_boot site) lines stop events agenda s
        → (plan : Plan) → next_plan (sizes_of site) (length events) (counts s) agenda ≡ Some plan
        → (harm : Harm) → play s plan.event ≡ Would harm → ⊥ }
{}
