ghost use Rattle.std.specs.Prelude.{◌≡◌, ◌∷◌, [], ℕ, Bool, Some, None, true, false, Option};
ghost use Rattle.player.specs.declared.stop.ProcessorStop.{ProcessorStop};
ghost use Rattle.tal_tree.specs.declared.act.Act.{Act};
ghost use Rattle.tal_tree.specs.declared.act.Shown.{Shown};
ghost use Rattle.tal_tree.specs.declared.act.Shown.TheVariants.{Reply, Write};
ghost use Rattle.trace_print.specs.ReportText.{load_report_text, run_text};
ghost use Rattle.trace_print.specs.declared.closing.Closing.TheVariants as closing;
ghost use Rattle.trace_print.specs.declared.closing.Closing.TheVariants.{Ended};
ghost use Rattle.trace_print.specs.declared.closing.End.TheVariants as end;
ghost use Rattle.command_words.specs.declared.asked.Command.TheVariants as command;
ghost use Rattle.schedule_loop.specs.declared.ran.Ending.TheVariants.{Idle, Cut, Lost, Second};
ghost use Rattle.command_dues.specs.Decided.{reads_deck};
ghost use Rattle.command_dues.specs.RunEnds.{acts_of_run, closing_of, load_counts, shown_in, status_of_run};
ghost use Rattle.command_dues.specs.Written.{text_of_run, told_acts};
ghost use Rattle.command_dues.specs.declared.due.Report.{Report};
ghost use Rattle.command_dues.specs.declared.outcome.RunEnd.{RunEnd};
ghost use Rattle.command_dues.specs.declared.outcome.Status.TheVariants as status;
ghost use Rattle.command_dues.specs.declared.task.Telling.TheVariants.{Counts, Lines};
ghost use Rattle.runner_guards.specs.Reports.{keeping, showing};

/// What a run kept and showed is told the oldest first, its acts only where they are asked for; of a load it is
/// counted.
pub fn what_a_run_did_is_told_in_order()
    ensures shown { (run : RunEnd) (a b : Shown) → shown_in (showing (a ∷ b ∷ []) run) ≡ b ∷ a ∷ [] }
    ensures kept { (run : RunEnd) (a b : Act) → acts_of_run (keeping (a ∷ b ∷ []) run) ≡ b ∷ a ∷ [] }
    ensures asked_for { (run : RunEnd) → told_acts true run ≡ acts_of_run run }
    ensures not_asked_for { (run : RunEnd) → told_acts false run ≡ [] }
    ensures counted { (run : RunEnd) → load_counts 50 (showing (Reply 0 2 [] ∷ Write 0 3 [] ∷ Reply 0 1 [] ∷ []) run)
        ≡ record { requests = 50; writes = 1; replies = 2 } }
{}

/// A run that ended idle is done, one with something left was cut, and one before a second stop or the
/// loss of a disc says which.
pub fn an_ending_has_its_status_and_its_line()
    ensures idle { (status_of_run Idle ≡ status.Done) × (closing_of Idle ≡ Ended end.Idle) }
    ensures cut { (status_of_run Cut ≡ status.Cut) × (closing_of Cut ≡ Ended end.Cut) }
    ensures second { (processor : ℕ) → (status_of_run (Second processor) ≡ status.SecondStop processor)
        × (closing_of (Second processor) ≡ Ended (end.Second processor)) }
    ensures lost { (process : ℕ) → (status_of_run (Lost process) ≡ status.DiscLost process)
        × (closing_of (Lost process) ≡ closing.Lost process) }
{}

/// A report tells of its own run: by lines, or for a load by counts.
pub fn a_report_is_by_what_it_tells()
    ensures lines { (report : Report) (acts : Bool) → text_of_run (record report { tells = Lines acts })
        ≡ run_text report.site (shown_in report.run) report.sectors report.mirrors report.stopped
        (told_acts acts report.run) (closing_of report.run.ran.ending) }
    ensures load { (report : Report) (requests : ℕ) → text_of_run (record report { tells = Counts requests })
        ≡ load_report_text report.site (load_counts requests report.run) report.sectors report.stopped
        (closing_of report.run.ran.ending) }
{}

/// A deck is read to run, check or sweep it or to advise, and not for a load or for words that are no command.
pub fn a_deck_is_read_for_what_needs_it()
    ensures run { (acts : Bool) (stop : Option ProcessorStop) → reads_deck (Some (command.Run acts stop)) ≡ true }
    ensures check { reads_deck (Some command.Check) ≡ true }
    ensures sweep { (runs : ℕ) → reads_deck (Some (command.Sweep runs)) ≡ true }
    ensures advise { reads_deck (Some command.Advise) ≡ true }
    ensures load { (requests : ℕ) → reads_deck (Some (command.Load requests)) ≡ false }
    ensures nothing { reads_deck None ≡ false }
{}
