ghost use Rattle.std.specs.Prelude.{List, Option};
ghost use Rattle.noted_rules.specs.packet_runs.specs.Ends.{IsRunOf};
ghost use Rattle.player.specs.declared.stop.ProcessorStop.{ProcessorStop};
ghost use Rattle.schedule.specs.declared.line.Line.{Line};
ghost use Rattle.tal_tree.specs.declared.site.Site.{Site};
ghost use Rattle.noted_runs.specs.Runs.{IsRunWithSteps};
ghost use Rattle.noted_runs.specs.declared.running.NotedRan.{NotedRan};

/// A run with notes is a run of its schedule, whatever is noted.
pub fn a_noted_run_is_a_run()
    ensures { (site : Site) (lines : List Line) (stop : Option ProcessorStop) (noted : NotedRan)
        → IsRunWithSteps site lines stop noted → IsRunOf site lines stop noted.ran }
{}
