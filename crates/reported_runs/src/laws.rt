//! The laws.
ghost use Rattle.std.specs.Prelude.{◌≡◌, ◌≤◌, ◌++◌, ℕ, true, List, Ok, Option, Result, Some, length};
ghost use Rattle.command_words.specs.Asked.{asked_by};
ghost use Rattle.command_words.specs.declared.asked.Command.TheVariants.{Run, Verify};
ghost use Rattle.deck_reader.specs.Decks.{Decks};
ghost use Rattle.deck_reader.specs.declared.deck.Deck.{Deck};
ghost use Rattle.player.specs.declared.stop.ProcessorStop.{ProcessorStop};
ghost use Rattle.player.specs.gd_words.specs.declared.limits.TheConstants.{MOST_INPUT_BYTES};
ghost use Rattle.plain_semantics.specs.Machine.{shown_by};
ghost use Rattle.report_judge.specs.Reported.{IsReported};
ghost use Rattle.report_judge.specs.Verdicts.{IsVerdict};
ghost use Rattle.report_judge.specs.declared.judge.VerifyFault.{VerifyFault};
ghost use Rattle.report_laws.specs.OneVerdict.{IsSameVerdict};
ghost use Rattle.command_dues.specs.Decided.{IsDue, IsReportOf};
ghost use Rattle.command_dues.specs.RunEnds.{acts_of_run, closing_of};
ghost use Rattle.reported_runs.specs.EndedDecks.{IsEnded};
ghost use Rattle.reported_runs.specs.Unmirrored.{AreUnmirrored};
ghost use Rattle.trace_print.specs.declared.closing.Closing.TheVariants.{Ended};
ghost use Rattle.trace_print.specs.declared.closing.End.{End};
ghost use Rattle.command_dues.specs.Verified.{deck_in, report_in};
ghost use Rattle.command_dues.specs.Written.{text_of, text_of_run};
ghost use Rattle.command_dues.specs.declared.due.Due.TheVariants as due;
ghost use Rattle.command_dues.specs.declared.due.Report.{Report};
ghost use Rattle.command_dues.specs.declared.task.Telling.TheVariants.{Lines};
ghost use Rattle.shown_sectors.specs.Sectors.{sectors_after};
ghost use Rattle.told_reports.specs.InForm.{IsInForm};
ghost use Rattle.told_reports.specs.NamesApart.{TellsNamesApart};

/// The report of a run that tells its acts is a reported run of the deck's site: with those acts, the processors that
/// have stopped, and how it ended. The deck has no mirrored disc, of whose drives no reported run tells.
pub fn a_report_of_a_run_is_reported()
    ensures { (deck : Deck) (stop : Option ProcessorStop) (report : Report) → IsReportOf deck stop report
        → AreUnmirrored deck.site.processes → (end : End) → closing_of report.run.ran.ending ≡ Ended end
        → report.tells ≡ Lines true
        → IsReported deck.site (text_of_run report) (acts_of_run report.run) report.stopped end }
{}

/// So what is written where the words ask for a run with its acts, and a run is made, is a reported run of the deck
/// that the bytes spell.
pub fn what_a_run_writes_is_reported()
    ensures { (words : List (List ℕ)) (bytes : List ℕ) (before now : ℕ) (stop : Option ProcessorStop)
        (report : Report) (end : End)
        → asked_by words ≡ Some (Run true stop) → IsDue words (Some bytes) before now (due.Report report)
        → closing_of report.run.ran.ending ≡ Ended end
        → (deck : Deck) × Decks bytes deck × (AreUnmirrored deck.site.processes
        → IsReported deck.site (text_of (due.Report report)) (acts_of_run report.run) report.stopped end) }
{}

/// Where names tell processes, terminals and openers apart, and what the run shows is in form, its report is verified,
/// with all its acts, unless memory runs out.
pub fn a_report_of_a_run_in_form_is_verified()
    ensures { (deck : Deck) (stop : Option ProcessorStop) (report : Report) (end : End)
        (verdict : Result ℕ VerifyFault) → AreUnmirrored deck.site.processes
        → IsReportOf deck stop report → closing_of report.run.ran.ending ≡ Ended end → report.tells ≡ Lines true
        → TellsNamesApart deck.site
        → IsInForm deck.site (shown_by deck.site (acts_of_run report.run))
        (sectors_after deck.site (shown_by deck.site (acts_of_run report.run))) report.stopped
        (acts_of_run report.run) end
        → IsVerdict deck.site (text_of_run report) verdict
        → IsSameVerdict verdict (Ok (length (acts_of_run report.run))) }
{}

/// Each report of a run of a deck without mirrored discs that tells its acts is verified, with all its acts, unless
/// memory runs out.
pub fn every_report_of_a_run_is_verified()
    ensures { (bytes : List ℕ) (deck : Deck) (stop : Option ProcessorStop) (report : Report) (end : End)
        (verdict : Result ℕ VerifyFault) → Decks bytes deck → AreUnmirrored deck.site.processes
        → IsReportOf deck stop report → closing_of report.run.ran.ending ≡ Ended end → report.tells ≡ Lines true
        → IsVerdict deck.site (text_of_run report) verdict
        → IsSameVerdict verdict (Ok (length (acts_of_run report.run))) }
{}

/// Where a deck ends with the line feed of its END, it is the deck that is found before whatever follows it, such as
/// the report of its run, and what follows is the report that is judged.
pub fn a_report_follows_its_deck()
    ensures deck { (bytes text : List ℕ) → IsEnded bytes → deck_in (bytes ++ text) ≡ bytes }
    ensures report { (bytes text : List ℕ) → IsEnded bytes → report_in (bytes ++ text) ≡ text }
{}

/// Where a deck that ends with the line feed of its END is run with its acts, the deck and then what the run writes,
/// at most 67,108,864 bytes together, are due to be verified, with all acts of the run.
pub fn a_run_and_its_report_are_verified()
    ensures { (words others : List (List ℕ)) (bytes : List ℕ) (before now later last : ℕ)
        (stop : Option ProcessorStop) (report : Report) (end : End)
        → asked_by words ≡ Some (Run true stop) → IsDue words (Some bytes) before now (due.Report report)
        → closing_of report.run.ran.ending ≡ Ended end
        → ((deck : Deck) → Decks bytes deck → AreUnmirrored deck.site.processes) → asked_by others ≡ Some Verify
        → IsEnded bytes
        → length (bytes ++ text_of (due.Report report)) ≤ MOST_INPUT_BYTES
        → IsDue others (Some (bytes ++ text_of (due.Report report))) later last
        (due.Verified (length (acts_of_run report.run))) }
{}
