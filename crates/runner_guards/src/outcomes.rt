ghost use Rattle.std.specs.Prelude.{◌≡◌, ℕ, [], ⊤, List, Ok, Err, Some, None, true, false};
ghost use Rattle.gd_words.specs.Memory.{no_memory};
ghost use Rattle.tal_tree.specs.declared.fault.DeckFault.{DeckFault};
ghost use Rattle.tal_tree.specs.declared.site.Site.{Site};
ghost use Rattle.path_semantics.specs.declared.reason.RefusalFault.{RefusalFault};
ghost use Rattle.gd_io.specs.declared.writing.WriteFault.{WriteFault};
ghost use Rattle.trace_print.specs.AdviceText.{advised_text};
ghost use Rattle.trace_print.specs.EndLine.{usage_line};
ghost use Rattle.trace_print.specs.FaultLine.{fault_line};
ghost use Rattle.trace_print.specs.RowLine.{sweep_text};
ghost use Rattle.run_table.specs.declared.table.ProcessorRow.{ProcessorRow};
ghost use Rattle.trace_print.specs.VerdictLine.{rejected_line, verified_line};
ghost use Rattle.trace_print.specs.VerdictText.{accepted_text, refusal_text};
ghost use Rattle.report_judge.specs.declared.judge.Why.{Why};
ghost use Rattle.report_judge.specs.declared.judge.Why.TheVariants as why;
ghost use Rattle.command_dues.specs.RunEnds.{status_of_run};
ghost use Rattle.command_dues.specs.Written.{cause_of, outcome_of, run_of, status_of, text_of, text_of_run};
ghost use Rattle.command_dues.specs.declared.due.AdvisedSite.{AdvisedSite};
ghost use Rattle.command_dues.specs.declared.due.Due.{Due};
ghost use Rattle.command_dues.specs.declared.due.Due.TheVariants as due;
ghost use Rattle.command_dues.specs.declared.due.RefusedSite.{RefusedSite};
ghost use Rattle.command_dues.specs.declared.due.Report.{Report};
ghost use Rattle.command_dues.specs.declared.outcome.Status.TheVariants as status;

/// What is due has its text and its status; where reading failed or memory ran out nothing is written.
pub fn what_is_due_is_written()
    ensures usage { (text_of due.Usage ≡ usage_line) × (status_of due.Usage ≡ status.Usage) }
    ensures read_fault { (text_of due.ReadFault ≡ []) × (status_of due.ReadFault ≡ status.ReadFault) }
    ensures no_memory { (text_of (due.NoMemory no_memory) ≡ [])
        × (status_of (due.NoMemory no_memory) ≡ status.NoMemory no_memory) }
    ensures deck_refused { (fault : DeckFault)
        → (text_of (due.DeckRefused fault) ≡ fault_line fault)
        × (status_of (due.DeckRefused fault) ≡ status.DeckRefused fault) }
    ensures refused { (refused : RefusedSite)
        → (text_of (due.ProgramRefused refused)
        ≡ refusal_text refused.site refused.found.process refused.found.refusal refused.found.lines)
        × (status_of (due.ProgramRefused refused) ≡ status.Refused refused.found.process refused.found.refusal) }
    ensures accepted { (site : Site) → (text_of (due.Accepted site) ≡ accepted_text site)
        × (status_of (due.Accepted site) ≡ status.Done) }
    ensures swept { (rows : List ProcessorRow)
        → (text_of (due.Swept rows) ≡ sweep_text rows) × (status_of (due.Swept rows) ≡ status.Done) }
    ensures report { (report : Report) → (text_of (due.Report report) ≡ text_of_run report)
        × (status_of (due.Report report) ≡ status_of_run report.run.ran.ending) }
    ensures verified { (acts : ℕ) → (text_of (due.Verified acts) ≡ verified_line acts)
        × (status_of (due.Verified acts) ≡ status.Done) }
    ensures rejected { (line : ℕ) (cause : Why)
        → (text_of (due.Rejected line cause) ≡ rejected_line line (cause_of cause))
        × (status_of (due.Rejected line cause) ≡ status.Rejected line cause) }
    ensures advised { (advised : AdvisedSite)
        → (text_of (due.Advised advised) ≡ advised_text advised.site advised.pairs)
        × (status_of (due.Advised advised) ≡ status.Done) }
    ensures unadvised { (refused : RefusedSite)
        → (text_of (due.Unadvised refused)
        ≡ refusal_text refused.site refused.found.process refused.found.refusal refused.found.lines)
        × (status_of (due.Unadvised refused) ≡ status.Refused refused.found.process refused.found.refusal) }
{}

/// A write fault changes the status and not the run; and only a report has one.
pub fn a_write_fault_leaves_the_run()
    ensures whole { (decided : Due) → outcome_of decided (Ok tt)
        ≡ record { status = status_of decided; run = run_of decided } }
    ensures fault { (decided : Due) (fault : WriteFault)
        → outcome_of decided (Err fault) ≡ record { status = status.WriteFault; run = run_of decided } }
    ensures report { (report : Report) → run_of (due.Report report) ≡ Some report.run }
    ensures accepted { (site : Site) → run_of (due.Accepted site) ≡ None }
    ensures swept { (rows : List ProcessorRow) → run_of (due.Swept rows) ≡ None }
    ensures verified { (acts : ℕ) → run_of (due.Verified acts) ≡ None }
    ensures rejected { (line : ℕ) (cause : Why) → run_of (due.Rejected line cause) ≡ None }
    ensures advised { (advised : AdvisedSite) → run_of (due.Advised advised) ≡ None }
{}

/// A cause for which a report is rejected has its number.
pub fn a_cause_has_its_number()
    ensures form { cause_of why.Form ≡ 1 }
    ensures act { cause_of why.Act ≡ 2 }
    ensures differs { cause_of why.Differs ≡ 3 }
    ensures not_idle { cause_of why.NotIdle ≡ 4 }
{}
