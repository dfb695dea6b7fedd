ghost use Rattle.std.specs.Prelude.{◌≡◌, ℕ, List, [], ◌∷◌};
ghost use Rattle.run_table.specs.declared.rows.Row.{Row};
ghost use Rattle.run_table.specs.declared.table.ProcessorRow.{ProcessorRow};
ghost use Rattle.schedule.specs.declared.line.Line.{Line};
ghost use Rattle.tal_tree.specs.declared.site.Site.{Site};
ghost use Rattle.schedule_sweeps.specs.Sweeps.{IsRowOf, IsSweepOf};
ghost use Rattle.sweep_guards.specs.Runs.{CountsNone, CountsTwo, HasTwoRows};

/// A row of no run counts none, and one of two runs the run with a stop of its processor before all events and that
/// after one event, each once.
pub fn a_row_counts_the_runs_with_its_stops()
    ensures none { (site : Site) (lines : List Line) (processor : ℕ) (row : Row) → IsRowOf site lines processor 0 row
        → CountsNone row }
    ensures two { (site : Site) (lines : List Line) (processor : ℕ) (row : Row) → IsRowOf site lines processor 2 row
        → CountsTwo site lines processor row }
{}

/// A sweep of a site of two processors has their two rows, first that of processor 0.
pub fn a_sweep_has_the_row_of_each_processor()
    ensures { (site : Site) (lines : List Line) (runs : ℕ) (rows : List ProcessorRow) → IsSweepOf site lines runs rows
        → site.processors ≡ 2
        → HasTwoRows site lines runs rows }
{}
