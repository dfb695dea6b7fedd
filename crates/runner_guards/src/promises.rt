ghost use Rattle.std.specs.Prelude.{◌≡◌, ◌≢◌, ◌<◌, ◌≤◌, ◌+◌, ℕ, List, Option, Result, Ok, Err, ⊤, IsOk, length, take};
ghost use Rattle.std.specs.Prelude.{true, false};
ghost use Rattle.std.specs.Io.KnownBytes.{Appends, IsAtEnd};
ghost use Rattle.command_words.specs.Asked.{asked_by};
ghost use Rattle.deck_reader.specs.declared.deck.Deck.{Deck};
ghost use Rattle.gd_io.specs.Faults.{HasRisen};
ghost use Rattle.gd_io.specs.Puts.{Puts};
ghost use Rattle.gd_io.specs.declared.writing.WriteFault.{WriteFault};
ghost use Rattle.plain_semantics.specs.Machine.{IsNoneLeft, IsPossible, shown_by};
ghost use Rattle.player.specs.declared.stop.ProcessorStop.{ProcessorStop};
ghost use Rattle.command_dues.specs.packet_runs.specs.Ends.{IsRunOf};
ghost use Rattle.schedule_loop.specs.declared.ran.Ending.TheVariants.{Idle};
ghost use Rattle.shown_sectors.specs.Sectors.{sectors_after};
ghost use Rattle.command_dues.specs.Decided.{IsDue, IsOfWholeDeck, IsReportOf, reads_deck};
ghost use Rattle.command_dues.specs.Ends.{Ends};
ghost use Rattle.command_dues.specs.Mirrors.{mirrors_from};
ghost use Rattle.command_dues.specs.RunEnds.{acts_of_run, shown_in};
ghost use Rattle.command_dues.specs.site_machine.specs.Stopped.{stopped_from};
ghost use Rattle.command_dues.specs.Written.{IsWritten, outcome_of, text_of};
ghost use Rattle.command_dues.specs.declared.due.Due.{Due};
ghost use Rattle.command_dues.specs.declared.due.Report.{Report};
ghost use Rattle.command_dues.specs.declared.outcome.Outcome.{Outcome};
ghost use Rattle.command_dues.specs.declared.outcome.Status.TheVariants as status;

use gd_io::{Sink, Source};

/// A report is of a run of its deck. The acts that the run keeps are possible on the machine of single unfailing
/// processes, what it shows is what they show there, and where it ended idle none is left. Its sectors, the drives
/// of its mirrored discs and its stops are those of the run.
pub fn a_report_promises_no_failure()
    ensures site { (deck : Deck) (stop : Option ProcessorStop) (report : Report) → IsReportOf deck stop report
        → report.site ≡ deck.site }
    ensures run { (deck : Deck) (stop : Option ProcessorStop) (report : Report) → IsReportOf deck stop report
        → IsRunOf deck.site deck.lines stop report.run.ran }
    ensures possible { (deck : Deck) (stop : Option ProcessorStop) (report : Report) → IsReportOf deck stop report
        → IsPossible deck.site (acts_of_run report.run) }
    ensures shown { (deck : Deck) (stop : Option ProcessorStop) (report : Report) → IsReportOf deck stop report
        → shown_in report.run ≡ shown_by deck.site (acts_of_run report.run) }
    ensures none { (deck : Deck) (stop : Option ProcessorStop) (report : Report) → IsReportOf deck stop report
        → report.run.ran.ending ≡ Idle
        → IsNoneLeft deck.site (acts_of_run report.run) }
    ensures sectors { (deck : Deck) (stop : Option ProcessorStop) (report : Report) → IsReportOf deck stop report
        → report.sectors ≡ sectors_after deck.site (shown_in report.run) }
    ensures mirrors { (deck : Deck) (stop : Option ProcessorStop) (report : Report) → IsReportOf deck stop report
        → report.mirrors ≡ mirrors_from 0 deck.site.processes report.run.ran.machine.state.drives }
    ensures stopped { (deck : Deck) (stop : Option ProcessorStop) (report : Report) → IsReportOf deck stop report
        → report.stopped ≡ stopped_from 0 report.run.ran.machine.state.world.stopped }
{}

/// What a command ends with is due, and was written. It leaves its source as it is where no deck is read, and reads a
/// deck to its end that it runs, judges or refuses for what it says. A source that is sure of itself has no read fault.
pub fn a_command_ends_as_it_says<S: Source, K: Sink>()
    ensures due { (words : List (List ℕ)) (source source_now : S) (sink sink_now : K) (outcome : Outcome)
        → Ends S.left S.faults S.sure K.held K.faults K.sure words source source_now sink sink_now outcome
        → (decided : Due) × IsDue words (S.left source) (S.faults source) (S.faults source_now) decided
        × IsWritten K.held K.faults K.sure sink sink_now decided outcome
        × (reads_deck (asked_by words) ≡ true → IsOfWholeDeck decided → IsAtEnd (S.left source_now)) }
    ensures unread { (words : List (List ℕ)) (source source_now : S) (sink sink_now : K) (outcome : Outcome)
        → Ends S.left S.faults S.sure K.held K.faults K.sure words source source_now sink sink_now outcome
        → reads_deck (asked_by words) ≡ false → source_now ≡ source }
    ensures sure { (words : List (List ℕ)) (source source_now : S) (sink sink_now : K) (outcome : Outcome)
        → Ends S.left S.faults S.sure K.held K.faults K.sure words source source_now sink sink_now outcome
        → S.sure source → outcome.status ≢ status.ReadFault }
{}

/// What is due is put to the sink, and the outcome is by that.
pub fn what_is_due_is_put<K: Sink>()
    ensures { (old new : K) (decided : Due) (outcome : Outcome)
        → IsWritten K.held K.faults K.sure old new decided outcome
        → (result : Result ⊤ WriteFault) × Puts K.held K.faults K.sure old new (text_of decided) result
        × (outcome ≡ outcome_of decided result) }
{}

/// A text goes out whole; or there is a fault, which is counted, and its last byte at least stays behind. A sink that
/// is sure of it has none.
pub fn a_text_is_put_whole_or_in_part<K: Sink>()
    ensures whole { (old new : K) (text : List ℕ) (done : ⊤) → Puts K.held K.faults K.sure old new text (Ok done)
        → Appends (K.held old) (K.held new) text }
    ensures part { (old new : K) (text : List ℕ) (fault : WriteFault)
        → Puts K.held K.faults K.sure old new text (Err fault)
        → (n : ℕ) × (n < length text) × Appends (K.held old) (K.held new) (take n text) }
    ensures counted { (old new : K) (text : List ℕ) (fault : WriteFault)
        → Puts K.held K.faults K.sure old new text (Err fault) → HasRisen (K.faults old) (K.faults new) }
    ensures later { (old new : K) (text : List ℕ) (result : Result ⊤ WriteFault)
        → Puts K.held K.faults K.sure old new text result → K.faults old ≤ K.faults new }
    ensures sure { (old new : K) (text : List ℕ) (result : Result ⊤ WriteFault) (n : ℕ)
        → Puts K.held K.faults K.sure old new text result → K.sure old (length text + n)
        → IsOk result × K.sure new n }
    ensures still { (old new : K) (text : List ℕ) (result : Result ⊤ WriteFault) (n : ℕ)
        → Puts K.held K.faults K.sure old new text result → K.sure old (length text + n)
        → K.faults new ≡ K.faults old }
{}
