ghost use Rattle.std.specs.Prelude.{◌≡◌, ◌≢◌, ◌≤◌, ◌<◌, ℕ, List as Items, length, IfOk};
ghost use Rattle.std.specs.Io.KnownBytes.{IsAtEnd};
ghost use Rattle.deck_reader.specs.Decks.{Decks};
ghost use Rattle.explain_break.specs.break_progress.specs.Progress.{GoesOut};
ghost use Rattle.explain_decks.specs.Decided.{IsDueOfBytes, IsDueOfDeck, IsDueOfFault, IsDueOfSource, IsDueOfTrace};
ghost use Rattle.explain_decks.specs.Decided.{IsOfWholeDeck, can_stop, due_of_chart, due_of_told, has_processor};
ghost use Rattle.explain_decks.specs.Written.{CanBeWritten};
ghost use Rattle.explain_left.specs.explain_why.specs.Judged.{IsJudgedDeck};
ghost use Rattle.verdicts.specs.Refused.{AreAccepted};
ghost use Rattle.gd_words.specs.declared.limits.TheConstants.{MOST_DECK_BYTES};

use crate::due::{Due, RefusedDeck, TracedDeck};
use crate::telling::Telling;
use deck_reader::{Deck, read_deck};
use explain_break::break_deck;
use explain_chart::{ChartFault, Manner, chart_deck, places_of};
use explain_left::{
    JudgedDeck, judged_deck, left_deck, programs_of_a_deck_can_be_judged,
    unrefused_programs_are_accepted,
};
use fault_text::told_text;
use gd_io::{Sink, Source, SourceFault, read_all};
use gd_words::NoMemory;
use gd_words::limits::MOST_DECK_BYTES;
use player::ProcessorStop;
use std::alloc::Global;
use tal_tree::DeckFault;

/// What is due of the bytes of a source. All memory is taken here. How far a search is goes to `progress` meanwhile.
pub fn due_of_source<S: Source, P: Sink>(
    alloc: Global,
    telling: Telling,
    source: &mut S,
    progress: &mut P,
) -> Due
    ensures due { (meanwhile : Items ℕ)
        × GoesOut P.held P.faults P.sure progress.old progress.new meanwhile
        × IsDueOfSource telling (S.left source.old) (S.faults source.old) (S.faults source.new) meanwhile result }
    ensures written { CanBeWritten result }
    ensures unfailing { S.sure source.old → result ≢ Due.ReadFault }
    ensures read_whole { IsOfWholeDeck result → IsAtEnd (S.left source.new) }
{
    match read_all(alloc, source, MOST_DECK_BYTES) {
        Ok(bytes) => due_of_bytes(alloc, telling, bytes.as_slice(), progress),
        Err(SourceFault::Failed) => Due::ReadFault,
        Err(SourceFault::TooLong) => due_of_fault(alloc, &[], DeckFault::TooLong),
        Err(SourceFault::NoMemory(memory)) => Due::NoMemory(memory),
    }
}

fn due_of_bytes<P: Sink>(alloc: Global, telling: Telling, bytes: &[u8], progress: &mut P) -> Due
    ensures due { (meanwhile : Items ℕ)
        × GoesOut P.held P.faults P.sure progress.old progress.new meanwhile
        × IsDueOfBytes telling bytes.now meanwhile result }
    ensures written { CanBeWritten result }
{
    match read_deck(alloc, bytes) {
        Ok(deck) => due_of_deck(alloc, telling, bytes, deck, progress),
        Err(fault) => due_of_fault(alloc, bytes, fault),
    }
}

fn due_of_deck<P: Sink>(
    alloc: Global,
    telling: Telling,
    bytes: &[u8],
    deck: Deck,
    progress: &mut P,
) -> Due
    requires spelt { Decks bytes.now deck }
    requires few { length bytes.now ≤ MOST_DECK_BYTES }
    ensures due { (meanwhile : Items ℕ)
        × GoesOut P.held P.faults P.sure progress.old progress.new meanwhile
        × IsDueOfDeck telling bytes.now deck meanwhile result }
    ensures written { CanBeWritten result }
{
    if !can_stop(telling, deck.site.processors) {
        return Due::NoProcessor;
    }
    match telling {
        Telling::Why => due_of_told(why_told(alloc, bytes, &deck)),
        Telling::Left(stop) => due_of_told(left_deck(alloc, bytes, deck, stop)),
        Telling::Breaks => due_of_told(break_deck(alloc, bytes, deck, progress)),
        Telling::Trace { stop, manner } => due_of_trace(alloc, bytes, deck, stop, manner),
        Telling::Chart { stop, scope } => due_of_chart(chart_deck(alloc, bytes, deck, stop, scope)),
    }
}

/// Whether a site of so many processors has the one that is to stop.
fn can_stop(telling: Telling, processors: u8) -> bool
    ensures { result ≡ can_stop telling processors }
{
    match telling {
        Telling::Why => true,
        Telling::Left(stop) => has_processor(stop, processors),
        Telling::Breaks => true,
        Telling::Trace { stop, manner: _ } => has_processor(stop, processors),
        Telling::Chart { stop, scope: _ } => has_processor(stop, processors),
    }
}

fn has_processor(stop: Option<ProcessorStop>, processors: u8) -> bool
    ensures { result ≡ has_processor stop processors }
{
    match stop {
        None => true,
        Some(stop) => stop.processor < processors,
    }
}

fn why_told(alloc: Global, bytes: &[u8], deck: &Deck) -> Result<JudgedDeck, NoMemory>
    requires spelt { Decks bytes.now deck.now }
    requires few { length bytes.now ≤ MOST_DECK_BYTES }
    ensures { IfOk result (λ judged. IsJudgedDeck bytes.now deck.now.site.processes judged) }
{
    programs_of_a_deck_can_be_judged();
    judged_deck(alloc, bytes, deck.site.processes.as_slice())
}

/// What is due where it was told of a deck, or memory ran out.
fn due_of_told(told: Result<JudgedDeck, NoMemory>) -> Due
    ensures { result ≡ due_of_told told }
{
    match told {
        Err(memory) => Due::NoMemory(memory),
        Ok(judged) => Due::Judged(judged),
    }
}

/// What is due where the chart of a deck was drawn, or there is none.
fn due_of_chart(told: Result<JudgedDeck, ChartFault>) -> Due
    ensures { result ≡ due_of_chart told }
{
    match told {
        Ok(judged) => Due::Judged(judged),
        Err(ChartFault::TooLong) => Due::ChartTooLong,
        Err(ChartFault::NoMemory(memory)) => Due::NoMemory(memory),
    }
}

/// What is due of a deck whose run is to be told: where a program is refused, that.
fn due_of_trace(
    alloc: Global,
    bytes: &[u8],
    deck: Deck,
    stop: Option<ProcessorStop>,
    manner: Manner,
) -> Due
    requires spelt { Decks bytes.now deck }
    requires few { length bytes.now ≤ MOST_DECK_BYTES }
    ensures { IsDueOfTrace bytes.now deck stop manner result }
{
    unrefused_programs_are_accepted();
    let judged = match why_told(alloc, bytes, &deck) {
        Ok(judged) => judged,
        Err(memory) => return Due::NoMemory(memory),
    };
    if judged.refused {
        return Due::Judged(judged);
    }
    due_of_run(alloc, bytes, deck, stop, manner)
}

fn due_of_run(
    alloc: Global,
    bytes: &[u8],
    deck: Deck,
    stop: Option<ProcessorStop>,
    manner: Manner,
) -> Due
    requires few { length bytes.now ≤ MOST_DECK_BYTES }
    requires accepted { AreAccepted deck.site.processes }
    ensures { IsDueOfTrace bytes.now deck stop manner result }
{
    match places_of(alloc, bytes, &deck.site) {
        Err(memory) => Due::NoMemory(memory),
        Ok(places) => Due::Runs(TracedDeck {
            deck,
            places,
            stop,
            manner,
        }),
    }
}

fn due_of_fault(alloc: Global, bytes: &[u8], fault: DeckFault) -> Due
    ensures { IsDueOfFault bytes.now fault result }
{
    if let DeckFault::NoMemory(memory) = fault {
        return Due::NoMemory(memory);
    }
    match told_text(alloc, bytes, &fault) {
        Err(memory) => Due::NoMemory(memory),
        Ok(told) => Due::Refused(RefusedDeck { fault, told }),
    }
}
