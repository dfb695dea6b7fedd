ghost use Rattle.std.specs.Prelude.{◌≡◌, ◌≢◌, ◌⊎◌, ℕ, Bool, true, List, Option, Some, None, length};
ghost use Rattle.gd_words.specs.Memory.{no_memory};
ghost use Rattle.command_words.specs.Asked.{asked_by};
ghost use Rattle.command_words.specs.declared.asked.Command.TheVariants.{Advise, Check, Load, Run, Sweep, Verify};
ghost use Rattle.deck_reader.specs.Decks.{Decks};
ghost use Rattle.deck_reader.specs.declared.deck.Deck.{Deck};
ghost use Rattle.gd_io.specs.Faults.{HasRisen};
ghost use Rattle.load_laws.specs.LoadDeck.{load_deck};
ghost use Rattle.player.specs.declared.stop.ProcessorStop.{ProcessorStop};
ghost use Rattle.command_dues.specs.report_reader.specs.Reading.{acts_in};
ghost use Rattle.command_dues.specs.report_reader.specs.declared.reading.Reading.{Reading};
ghost use Rattle.command_dues.specs.Decided.{IsDue, IsDueOfAdvice, IsDueOfRun, IsDueOfSweep, IsReportOf};
ghost use Rattle.command_dues.specs.Ends.{Ends};
ghost use Rattle.command_dues.specs.Tasks.{can_stop};
ghost use Rattle.command_dues.specs.Written.{text_of};
ghost use Rattle.command_dues.specs.declared.due.Due.{Due};
ghost use Rattle.command_dues.specs.declared.due.Due.TheVariants as due;
ghost use Rattle.command_dues.specs.declared.due.Report.{Report};
ghost use Rattle.command_dues.specs.declared.outcome.Outcome.{Outcome};
ghost use Rattle.command_dues.specs.declared.outcome.Status.TheVariants as status;
ghost use Rattle.command_dues.specs.declared.task.Task.TheVariants as task;
ghost use Rattle.command_dues.specs.declared.task.Telling.TheVariants.{Counts, Lines};
ghost use Rattle.command_laws.specs.OneDue.{IsSameDue};
ghost use Rattle.command_laws.specs.ReportedInput.{IsReportedInput};
ghost use Rattle.command_laws.specs.RunStatus.{IsStatusOfCheck, IsStatusOfRun};
ghost use Rattle.verdicts.specs.Refused.{AreAccepted};

use gd_io::{Sink, Source};

/// Where the words ask for a run, and the source tells bytes that spell a deck which has the processor that is to stop
/// and whose programs are accepted, what is due is the report of a run of that deck, unless reading fails or memory
/// runs out.
pub fn an_accepted_deck_is_run()
    ensures { (words : List (List ℕ)) (bytes : List ℕ) (before now : ℕ) (acts : Bool) (stop : Option ProcessorStop)
        (deck : Deck) (decided : Due)
        → asked_by words ≡ Some (Run acts stop) → Decks bytes deck
        → can_stop (task.Run (Lines acts) stop) deck.site ≡ true → AreAccepted deck.site.processes
        → IsDue words (Some bytes) before now decided → decided ≢ due.ReadFault
        → IsDueOfRun deck stop (Lines acts) decided }
{}

/// So such a command ends with a run, where the source is sure of itself, unless memory runs out or a write fails: no
/// words, deck or program is refused.
pub fn no_accepted_deck_is_refused<S: Source, K: Sink>()
    ensures { (words : List (List ℕ)) (source source_now : S) (sink sink_now : K) (outcome : Outcome)
        → Ends S.left S.faults S.sure K.held K.faults K.sure words source source_now sink sink_now outcome
        → (bytes : List ℕ) (acts : Bool) (stop : Option ProcessorStop) (deck : Deck)
        → asked_by words ≡ Some (Run acts stop)
        → S.left source ≡ Some bytes → S.sure source → Decks bytes deck
        → can_stop (task.Run (Lines acts) stop) deck.site ≡ true
        → AreAccepted deck.site.processes → IsStatusOfRun outcome.status }
{}

/// Where the words ask for a check, and the source tells bytes that spell a deck whose programs are accepted, it is due
/// to say so, unless reading fails or memory runs out.
pub fn an_accepted_deck_is_checked()
    ensures { (words : List (List ℕ)) (bytes : List ℕ) (before now : ℕ) (deck : Deck) (decided : Due)
        → asked_by words ≡ Some Check → Decks bytes deck → AreAccepted deck.site.processes
        → IsDue words (Some bytes) before now decided → decided ≢ due.ReadFault
        → (decided ≡ due.Accepted deck.site) ⊎ (decided ≡ due.NoMemory no_memory) }
{}

/// So such a command ends well, where the source is sure of itself, unless memory runs out or a write fails.
pub fn no_accepted_deck_is_refused_a_check<S: Source, K: Sink>()
    ensures { (words : List (List ℕ)) (source source_now : S) (sink sink_now : K) (outcome : Outcome)
        → Ends S.left S.faults S.sure K.held K.faults K.sure words source source_now sink sink_now outcome
        → (bytes : List ℕ) (deck : Deck) → asked_by words ≡ Some Check
        → S.left source ≡ Some bytes → S.sure source → Decks bytes deck → AreAccepted deck.site.processes
        → IsStatusOfCheck outcome.status }
{}

/// Where the words ask for a sweep, and the source tells bytes that spell a deck whose programs are accepted, what is
/// due is the row of each of its processors, unless reading fails or memory runs out.
pub fn an_accepted_deck_is_swept()
    ensures { (words : List (List ℕ)) (bytes : List ℕ) (before now runs : ℕ) (deck : Deck) (decided : Due)
        → asked_by words ≡ Some (Sweep runs) → Decks bytes deck → AreAccepted deck.site.processes
        → IsDue words (Some bytes) before now decided → decided ≢ due.ReadFault → IsDueOfSweep deck runs decided }
{}

/// So such a command ends well, where the source is sure of itself, unless memory runs out or a write fails.
pub fn no_accepted_deck_is_refused_a_sweep<S: Source, K: Sink>()
    ensures { (words : List (List ℕ)) (source source_now : S) (sink sink_now : K) (outcome : Outcome)
        → Ends S.left S.faults S.sure K.held K.faults K.sure words source source_now sink sink_now outcome
        → (bytes : List ℕ) (runs : ℕ) (deck : Deck) → asked_by words ≡ Some (Sweep runs)
        → S.left source ≡ Some bytes → S.sure source → Decks bytes deck → AreAccepted deck.site.processes
        → IsStatusOfCheck outcome.status }
{}

/// Where the words ask for a report to be judged, and the source tells bytes that begin with a deck whose programs are
/// accepted and go on with a report of it, it is due to say so, unless reading fails or memory runs out.
pub fn a_report_of_a_deck_is_verified()
    ensures { (words : List (List ℕ)) (bytes : List ℕ) (before now : ℕ) (deck : Deck) (reading : Reading)
        (decided : Due)
        → asked_by words ≡ Some Verify → IsReportedInput bytes deck reading
        → IsDue words (Some bytes) before now decided → decided ≢ due.ReadFault
        → (decided ≡ due.Verified (length (acts_in reading.told))) ⊎ (decided ≡ due.NoMemory no_memory) }
{}

/// So such a command ends well, where the source is sure of itself, unless memory runs out or a write fails.
pub fn no_report_of_a_deck_is_rejected<S: Source, K: Sink>()
    ensures { (words : List (List ℕ)) (source source_now : S) (sink sink_now : K) (outcome : Outcome)
        → Ends S.left S.faults S.sure K.held K.faults K.sure words source source_now sink sink_now outcome
        → (bytes : List ℕ) (deck : Deck) (reading : Reading) → asked_by words ≡ Some Verify
        → S.left source ≡ Some bytes → S.sure source → IsReportedInput bytes deck reading
        → IsStatusOfCheck outcome.status }
{}

/// Where the words ask for advice, and the source tells bytes that spell a deck, what is due is the advice for each of
/// its programs, whether they are accepted or not, or the first for which there is none, unless reading fails or memory
/// runs out.
pub fn a_deck_has_advice_or_a_cause()
    ensures { (words : List (List ℕ)) (bytes : List ℕ) (before now : ℕ) (deck : Deck) (decided : Due)
        → asked_by words ≡ Some Advise → Decks bytes deck
        → IsDue words (Some bytes) before now decided → decided ≢ due.ReadFault → IsDueOfAdvice deck decided }
{}

/// If the words ask for a load, what is due is the report of a run of the load deck, told in counts, or that memory ran
/// out.
pub fn a_load_is_run()
    ensures { (words : List (List ℕ)) (left : Option (List ℕ)) (before now count : ℕ) (decided : Due)
        → asked_by words ≡ Some (Load count)
        → IsDue words left before now decided → IsDueOfRun (load_deck count) None (Counts count) decided }
{}

/// So a command of such words ends with a run, unless memory runs out or a write fails: no words, deck, program or
/// source is refused.
pub fn a_load_is_never_refused<S: Source, K: Sink>()
    ensures { (words : List (List ℕ)) (source source_now : S) (sink sink_now : K) (outcome : Outcome) (count : ℕ)
        → Ends S.left S.faults S.sure K.held K.faults K.sure words source source_now sink sink_now outcome
        → asked_by words ≡ Some (Load count)
        → IsStatusOfRun outcome.status }
{}

/// A command ends with a read fault only where the source counted one, and with a write fault only where the sink did;
/// and with no write fault where the sink is sure of the text that is due.
pub fn faults_were_counted<S: Source, K: Sink>()
    ensures read { (words : List (List ℕ)) (source source_now : S) (sink sink_now : K) (outcome : Outcome)
        → Ends S.left S.faults S.sure K.held K.faults K.sure words source source_now sink sink_now outcome
        → outcome.status ≡ status.ReadFault
        → HasRisen (S.faults source) (S.faults source_now) }
    ensures written { (words : List (List ℕ)) (source source_now : S) (sink sink_now : K) (outcome : Outcome)
        → Ends S.left S.faults S.sure K.held K.faults K.sure words source source_now sink sink_now outcome
        → outcome.status ≡ status.WriteFault
        → HasRisen (K.faults sink) (K.faults sink_now) }
    ensures sure { (words : List (List ℕ)) (source source_now : S) (sink sink_now : K) (outcome : Outcome)
        → (ends : Ends S.left S.faults S.sure K.held K.faults K.sure words source source_now sink sink_now outcome)
        → K.sure sink (length (text_of ends.decided)) → outcome.status ≢ status.WriteFault }
{}

/// A deck with a stop has one report, by what is to be told of it.
pub fn a_deck_has_one_report()
    ensures { (deck : Deck) (stop : Option ProcessorStop) (report other : Report) → IsReportOf deck stop report
        → IsReportOf deck stop other
        → report.tells ≡ other.tells → report ≡ other }
{}

/// The same words over the same bytes have the same due: the same report or verdict, or the same refusal, unless a read
/// fails or memory runs out. Of a program that is refused two shortest paths may be told, where there are two. What is
/// due of a load is the same over all sources.
pub fn what_is_due_is_one()
    ensures told { (words : List (List ℕ)) (bytes : List ℕ) (before now earlier later : ℕ) (one other : Due)
        → IsDue words (Some bytes) before now one
        → IsDue words (Some bytes) earlier later other → IsSameDue one other }
    ensures load { (words : List (List ℕ)) (count : ℕ) (left told : Option (List ℕ)) (before now earlier later : ℕ)
        (one other : Due)
        → asked_by words ≡ Some (Load count) → IsDue words left before now one → IsDue words told earlier later other
        → IsSameDue one other }
{}
