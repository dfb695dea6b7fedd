ghost use Rattle.std.specs.Prelude.{◌≡◌, ◌++◌, ℕ, List, Ok, Err, None, Option, true, false};
ghost use Rattle.tal_tree.specs.declared.fault.DeckFault.{DeckFault};
ghost use Rattle.tal_tree.specs.declared.fault.DeckFault.TheVariants.{OpensItself, TooLong};
ghost use Rattle.tal_tree.specs.declared.site.Site.{Site};
ghost use Rattle.command_words.specs.declared.asked.Command.TheVariants as command;
ghost use Rattle.deck_reader.specs.Decks.{Decks};
ghost use Rattle.deck_reader.specs.Refusals.{IsRefusalOf};
ghost use Rattle.deck_reader.specs.declared.deck.Deck.{Deck};
ghost use Rattle.gd_io.specs.Faults.{HasRisen};
ghost use Rattle.player.specs.declared.stop.ProcessorStop.{ProcessorStop};
ghost use Rattle.report_judge.specs.Verdicts.{IsVerdict};
ghost use Rattle.report_judge.specs.declared.judge.VerifyFault.TheVariants as refusal;
ghost use Rattle.report_judge.specs.declared.judge.Why.{Why};
ghost use Rattle.trace_print.specs.FaultLine.{IsOfDeck};
ghost use Rattle.trace_print.specs.site_advice.specs.SiteAdvised.{AreAdvised, IsFirstUnadvised};
ghost use Rattle.verdicts.specs.Refused.{AreAccepted, IsFirstRefused};
ghost use Rattle.load_deck.specs.LoadText.{load_text};
ghost use Rattle.run_table.specs.declared.table.ProcessorRow.{ProcessorRow};
ghost use Rattle.command_dues.specs.Decided.{IsDueOfTask, IsDueOfBytes, IsDueOfCommand, IsDueOfDeck, IsDueOfPrograms};
ghost use Rattle.command_dues.specs.Decided.{IsDueOfAdvice, IsDueOfRun, IsDueOfSource, IsDueOfVerify, IsDueOn};
ghost use Rattle.command_dues.specs.Decided.{IsOfWholeDeck, IsReportOf};
ghost use Rattle.command_dues.specs.Tasks.{can_stop, judges, load_task};
ghost use Rattle.command_dues.specs.Verified.{IsDueOfInput, IsDueOfJudged, IsDueOfReport, deck_in, report_in};
ghost use Rattle.command_dues.specs.Written.{CanBeWritten};
ghost use Rattle.command_dues.specs.declared.due.AdvisedSite.{AdvisedSite};
ghost use Rattle.command_dues.specs.declared.due.Due.{Due};
ghost use Rattle.command_dues.specs.declared.due.Due.TheVariants as due;
ghost use Rattle.command_dues.specs.declared.due.RefusedSite.{RefusedSite};
ghost use Rattle.command_dues.specs.declared.due.Report.{Report};
ghost use Rattle.command_dues.specs.declared.task.Task.{Task};
ghost use Rattle.command_dues.specs.declared.task.Task.TheVariants.{Advise, Check, Run, Sweep};
ghost use Rattle.command_dues.specs.declared.task.Telling.{Telling};
ghost use Rattle.command_dues.specs.declared.task.Telling.TheVariants.{Lines};

/// The usage is due where nothing is asked for, or the deck hasn't the processor that is to stop; a read fault where
/// the count of the source's faults has risen.
pub fn a_command_that_does_nothing_has_its_cause()
    ensures asked { (left : Option (List ℕ)) (before now : ℕ) (decided : Due) → IsDueOn None left before now decided
        → decided ≡ due.Usage }
    ensures has_not { (task : Task) (deck : Deck) → IsDueOfDeck task deck due.Usage → can_stop task deck.site ≡ false }
    ensures has { (task : Task) (deck : Deck) (site : Site) → IsDueOfDeck task deck (due.Accepted site)
        → can_stop task deck.site ≡ true }
    ensures read { (task : Task) (left : Option (List ℕ)) (before now : ℕ)
        → IsDueOfSource task left before now due.ReadFault → HasRisen before now }
{}

/// A refusal is that of the bytes that are read, of the deck or of its first program that isn't accepted.
pub fn a_refusal_is_of_what_was_read()
    ensures bytes { (task : Task) (bytes : List ℕ) (fault : DeckFault)
        → IsDueOfBytes task bytes (due.DeckRefused fault) → IsRefusalOf bytes fault }
    ensures program { (task : Task) (deck : Deck) (refused : RefusedSite)
        → IsDueOfPrograms task deck (due.ProgramRefused refused)
        → IsFirstRefused deck.site.processes refused.found }
    ensures judged { (deck : Deck) (refused : RefusedSite)
        → IsDueOfPrograms Advise deck (due.ProgramRefused refused) → ⊥ }
    ensures site { (task : Task) (deck : Deck) (refused : RefusedSite)
        → IsDueOfPrograms task deck (due.ProgramRefused refused) → refused.site ≡ deck.site }
    ensures line { (fault : DeckFault) → CanBeWritten (due.DeckRefused fault) → IsOfDeck fault }
{}

/// A verdict or a report is of a deck whose programs are all accepted: of its own site, of its own run, and told as it
/// was asked.
pub fn a_report_is_of_an_accepted_deck()
    ensures verdict { (deck : Deck) (site : Site) → IsDueOfPrograms Check deck (due.Accepted site)
        → AreAccepted deck.site.processes }
    ensures site { (deck : Deck) (site : Site) → IsDueOfTask Check deck (due.Accepted site)
        → due.Accepted site ≡ due.Accepted deck.site }
    ensures report { (deck : Deck) (task : Task) (report : Report) → judges task ≡ true
        → IsDueOfPrograms task deck (due.Report report) → AreAccepted deck.site.processes }
    ensures run { (deck : Deck) (stop : Option ProcessorStop) (tells : Telling) (report : Report)
        → IsDueOfRun deck stop tells (due.Report report) → IsReportOf deck stop report }
    ensures tells { (deck : Deck) (stop : Option ProcessorStop) (tells : Telling) (report : Report)
        → IsDueOfRun deck stop tells (due.Report report) → report.tells ≡ tells }
{}

/// Advice is for each pair of the deck, whether its program is accepted or not, or is refused for the first that
/// nothing mends; and no other verdict or report comes of asking for it.
pub fn advice_is_for_the_programs_of_the_deck()
    ensures advised { (deck : Deck) (advised : AdvisedSite) → IsDueOfPrograms Advise deck (due.Advised advised)
        → AreAdvised deck.site.processes advised.pairs }
    ensures site { (deck : Deck) (advised : AdvisedSite) → IsDueOfAdvice deck (due.Advised advised)
        → advised.site ≡ deck.site }
    ensures refused { (deck : Deck) (refused : RefusedSite) → IsDueOfPrograms Advise deck (due.Unadvised refused)
        → IsFirstUnadvised deck.site.processes refused.found }
    ensures its_site { (deck : Deck) (refused : RefusedSite) → IsDueOfAdvice deck (due.Unadvised refused)
        → refused.site ≡ deck.site }
    ensures accepted { (deck : Deck) (site : Site) → IsDueOfTask Advise deck (due.Accepted site) → ⊥ }
    ensures report { (deck : Deck) (report : Report) → IsDueOfTask Advise deck (due.Report report) → ⊥ }
    ensures run { (deck : Deck) (advised : AdvisedSite)
        → IsDueOfRun deck None (Lines true) (due.Advised advised) → ⊥ }
{}

/// A run is of the deck that is read, with the acts and the stop that the words ask for; a load is of its own deck, and
/// reads none.
pub fn a_command_reads_its_deck()
    ensures run { (stop : Option ProcessorStop) (left : Option (List ℕ)) (before now : ℕ) (decided : Due)
        → IsDueOfCommand (command.Run true stop) left before now decided
        → IsDueOfSource (Run (Lines true) stop) left before now decided }
    ensures check { (left : Option (List ℕ)) (before now : ℕ) (decided : Due)
        → IsDueOfCommand command.Check left before now decided
        → IsDueOfSource Check left before now decided }
    ensures sweep { (runs : ℕ) (left : Option (List ℕ)) (before now : ℕ) (decided : Due)
        → IsDueOfCommand (command.Sweep runs) left before now decided
        → IsDueOfSource (Sweep runs) left before now decided }
    ensures verify { (left : Option (List ℕ)) (before now : ℕ) (decided : Due)
        → IsDueOfCommand command.Verify left before now decided
        → IsDueOfVerify left before now decided }
    ensures advise { (left : Option (List ℕ)) (before now : ℕ) (decided : Due)
        → IsDueOfCommand command.Advise left before now decided
        → IsDueOfSource Advise left before now decided }
    ensures load { (requests : ℕ) (left : Option (List ℕ)) (before now : ℕ) (decided : Due)
        → IsDueOfCommand (command.Load requests) left before now decided
        → IsDueOfBytes (load_task requests) (load_text requests) decided }
{}

/// A report is judged by its own deck, which is what stands before it, and only where all programs of that deck are
/// accepted.
pub fn a_verdict_is_of_its_report()
    ensures accepted { (deck : Deck) (report : List ℕ) (acts : ℕ) → IsDueOfJudged deck report (due.Verified acts)
        → AreAccepted deck.site.processes }
    ensures verified { (site : Site) (report : List ℕ) (acts : ℕ) → IsDueOfReport site report (due.Verified acts)
        → IsVerdict site report (Ok acts) }
    ensures rejected { (site : Site) (report : List ℕ) (line : ℕ) (cause : Why)
        → IsDueOfReport site report (due.Rejected line cause)
        → IsVerdict site report (Err (refusal.Rejected line cause)) }
    ensures spelt { (bytes : List ℕ) (acts : ℕ) → IsDueOfInput bytes (due.Verified acts)
        → (deck : Deck) × Decks (deck_in bytes) deck × IsDueOfJudged deck (report_in bytes) (due.Verified acts) }
    ensures whole { (bytes : List ℕ) → deck_in bytes ++ report_in bytes ≡ bytes }
{}

/// A deck was read to its end where a report, a verdict, advice, the usage or a fault of a line is due, but for one
/// that is too long.
pub fn a_deck_is_read_to_its_end()
    ensures usage { IsOfWholeDeck due.Usage }
    ensures report { (report : Report) → IsOfWholeDeck (due.Report report) }
    ensures refused { (refused : RefusedSite) → IsOfWholeDeck (due.ProgramRefused refused) }
    ensures accepted { (site : Site) → IsOfWholeDeck (due.Accepted site) }
    ensures swept { (rows : List ProcessorRow) → IsOfWholeDeck (due.Swept rows) }
    ensures verified { (acts : ℕ) → IsOfWholeDeck (due.Verified acts) }
    ensures rejected { (line : ℕ) (cause : Why) → IsOfWholeDeck (due.Rejected line cause) }
    ensures advised { (advised : AdvisedSite) → IsOfWholeDeck (due.Advised advised) }
    ensures unadvised { (refused : RefusedSite) → IsOfWholeDeck (due.Unadvised refused) }
    ensures fault { (line : ℕ) → IsOfWholeDeck (due.DeckRefused (OpensItself line)) }
    ensures too_long { IsOfWholeDeck (due.DeckRefused TooLong) → ⊥ }
    ensures read_fault { IsOfWholeDeck due.ReadFault → ⊥ }
{}
