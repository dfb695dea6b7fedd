ghost use Rattle.std.specs.Prelude.{◌≡◌, List, Option};
ghost use Rattle.tal_tree.specs.declared.site.Site.{Site};
ghost use Rattle.schedule.specs.declared.line.Line.{Line};
ghost use Rattle.player.specs.declared.stop.ProcessorStop.{ProcessorStop};
ghost use Rattle.packet_runs.specs.Ends.{IsRunOf};
ghost use Rattle.packet_runs.specs.declared.ran.Ran.{Ran};

/// Two runs of a schedule with a stop on a site are the same: they played the same events, which led to the same state,
/// ended in the same way after as many events, and left the same machine.
pub fn a_schedule_has_one_run()
    ensures run { (site : Site) (lines : List Line) (stop : Option ProcessorStop) (ran other : Ran)
        → IsRunOf site lines stop ran → IsRunOf site lines stop other → ran ≡ other }
    ensures events { (site : Site) (lines : List Line) (stop : Option ProcessorStop) (ran other : Ran)
        → (one : IsRunOf site lines stop ran) (two : IsRunOf site lines stop other) → one.events ≡ two.events }
    ensures state { (site : Site) (lines : List Line) (stop : Option ProcessorStop) (ran other : Ran)
        → (one : IsRunOf site lines stop ran) (two : IsRunOf site lines stop other) → one.state ≡ two.state }
{}
