//! How many acts a run does.
ghost use Rattle.std.specs.Prelude.{◌<◌, List, Option, length};
ghost use Rattle.tal_tree.specs.declared.site.Site.{Site};
ghost use Rattle.schedule.specs.declared.line.Line.{Line};
ghost use Rattle.player.specs.declared.stop.ProcessorStop.{ProcessorStop};
ghost use Rattle.schedule_runs.specs.Ends.{IsRunOfPairs};
ghost use Rattle.schedule_runs.specs.declared.ran.Ran.{Ran};
ghost use Rattle.world_semantics.specs.Shares.{closed};

/// A run does at most as many acts as events were played, and so fewer than there are numbers of 32 bits.
pub fn a_run_does_few_acts()
    ensures { (site : Site) (lines : List Line) (stop : Option ProcessorStop) (ran : Ran)
        → IsRunOfPairs site lines stop ran → length (closed ran.machine.state.world) < 4294967295 }
{}
