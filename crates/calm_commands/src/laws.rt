//! The laws.
ghost use Rattle.std.specs.Prelude.{◌≡◌, ℕ, Bool, true, List, Option, Some};
ghost use Rattle.command_words.specs.Asked.{asked_by};
ghost use Rattle.command_words.specs.declared.asked.Command.TheVariants.{Run};
ghost use Rattle.deck_reader.specs.Decks.{Decks};
ghost use Rattle.deck_reader.specs.declared.deck.Deck.{Deck};
ghost use Rattle.player.specs.declared.stop.ProcessorStop.{ProcessorStop};
ghost use Rattle.command_laws.specs.command_dues.specs.Ends.{Ends};
ghost use Rattle.command_laws.specs.command_dues.specs.Tasks.{can_stop};
ghost use Rattle.command_laws.specs.command_dues.specs.declared.outcome.Outcome.{Outcome};
ghost use Rattle.command_laws.specs.command_dues.specs.declared.task.Task.TheVariants as task;
ghost use Rattle.command_laws.specs.command_dues.specs.declared.task.Telling.TheVariants.{Lines};
ghost use Rattle.gd_io.specs.Faults.{HasRisen};
ghost use Rattle.verdicts.specs.Refused.{AreAccepted};
ghost use Rattle.calm_commands.specs.CalmRuns.{IsCalmAndClear, IsStatusOfCalmRun, IsStatusWithoutFaults};

use deck_reader::a_deck_keeps_the_limits;
use gd_io::{Sink, Source};

/// Let the words ask for a run, and the source, which is sure of itself, tell bytes that spell a deck. It has the
/// processor that is to stop, and its programs are accepted. Where its schedule is calm, and each drain round of its
/// run clear, the command ends with a run that came to an idle end or was cut, unless memory runs out or a write fails.
pub fn a_calm_run_is_not_ended_by_a_second_stop<S: Source, K: Sink>()
    ensures { (words : List (List ℕ)) (source source_now : S) (sink sink_now : K) (outcome : Outcome)
        → Ends S.left S.faults S.sure K.held K.faults K.sure words source source_now sink sink_now outcome
        → (bytes : List ℕ) (acts : Bool) (stop : Option ProcessorStop) (deck : Deck)
        → asked_by words ≡ Some (Run acts stop)
        → S.left source ≡ Some bytes → S.sure source → Decks bytes deck
        → can_stop (task.Run (Lines acts) stop) deck.site ≡ true
        → AreAccepted deck.site.processes → IsCalmAndClear deck stop → IsStatusOfCalmRun outcome.status }
{
    a_deck_keeps_the_limits();
}

/// The same of any source that tells its bytes, if neither the source nor the sink counts a fault: the command ends
/// with a run that came to an idle end or was cut, unless memory runs out.
pub fn a_calm_run_without_faults_is_idle_or_cut<S: Source, K: Sink>()
    ensures { (words : List (List ℕ)) (source source_now : S) (sink sink_now : K) (outcome : Outcome)
        → Ends S.left S.faults S.sure K.held K.faults K.sure words source source_now sink sink_now outcome
        → (bytes : List ℕ) (acts : Bool) (stop : Option ProcessorStop) (deck : Deck)
        → asked_by words ≡ Some (Run acts stop)
        → S.left source ≡ Some bytes → Decks bytes deck
        → can_stop (task.Run (Lines acts) stop) deck.site ≡ true
        → AreAccepted deck.site.processes → IsCalmAndClear deck stop
        → (HasRisen (S.faults source) (S.faults source_now) → ⊥)
        → (HasRisen (K.faults sink) (K.faults sink_now) → ⊥) → IsStatusWithoutFaults outcome.status }
{
    a_deck_keeps_the_limits();
}
