ghost use Rattle.std.specs.Prelude.{◌≡◌, ◌≤◌, ℕ, List, Option};
ghost use Rattle.tal_tree.specs.declared.site.Site.{Site};
ghost use Rattle.schedule.specs.declared.line.Line.{Line};
ghost use Rattle.player.specs.declared.stop.ProcessorStop.{ProcessorStop};
ghost use Rattle.schedule_runs.specs.Ends.{IsRunOfPairs};
ghost use Rattle.schedule_runs.specs.schedule_loop.specs.declared.ran.Ending.TheVariants.{Second};
ghost use Rattle.schedule_runs.specs.declared.ran.Ran.{Ran};
ghost use Rattle.single_stops.specs.StopsAsked.{stops_asked};

/// Where a schedule asks for one stop at most, that of the words counted, no run of it ends before an event that would
/// stop a processor in a world that isn't whole.
pub fn one_stop_has_no_second()
    ensures { (site : Site) (lines : List Line) (stop : Option ProcessorStop) (ran : Ran) (processor : ℕ)
        → stops_asked lines stop ≤ 1
        → IsRunOfPairs site lines stop ran → ran.ending ≡ Second processor → ⊥ }
{}
