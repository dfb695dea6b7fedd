ghost use Rattle.std.specs.Prelude.{◌≡◌, ◌++◌, ◌≤◌, ℕ, List as Items, length, IfOk, Option};
ghost use Rattle.break_text.specs.BreakText.{search_text};
ghost use Rattle.break_text.specs.break_runs.specs.Breaks.{IsSearch};
ghost use Rattle.break_text.specs.break_runs.specs.Meanwhile.{search_progress};
ghost use Rattle.break_text.specs.break_runs.specs.break_progress.specs.Progress.{GoesOut, IsProgress};
ghost use Rattle.break_text.specs.break_runs.specs.declared.found.Search.{Search};
ghost use Rattle.schedule_lengths.specs.deck_reader.specs.Decks.{Decks};
ghost use Rattle.explain_break.specs.Broken.{IsBreakDeck, accepted_text};
ghost use Rattle.player.specs.declared.stop.ProcessorStop.{ProcessorStop};
ghost use Rattle.break_text.specs.schedule_runs.specs.pair_machine.specs.process_copies.specs.Starting.{IsStartable};
ghost use Rattle.break_text.specs.schedule_runs.specs.Lengths.{AsksForFewEvents};
ghost use Rattle.gd_words.specs.declared.limits.TheConstants.{MOST_DECK_BYTES};

use accepted_decks::an_accepted_deck_meets_the_premises;
use break_text::{put_search, search_breaks};
use explain_why::{
    JudgedDeck, judged_deck, programs_of_a_deck_can_be_judged, unrefused_programs_are_accepted,
};
use gd_io::Sink;
use gd_words::{List, NoMemory};
use logs::Shared;
use schedule_lengths::{Deck, a_deck_keeps_the_limits, a_schedule_asks_for_few_events};
use std::alloc::Global;
use text_pieces::put;

/// Where a program of the deck is refused, what is told of its programs, and of the first run of its schedule that
/// breaks. Else that none does. How far a search is goes to the sink meanwhile.
pub fn break_deck<K: Sink>(
    alloc: Global,
    bytes: &[u8],
    deck: Deck,
    sink: &mut K,
) -> Result<JudgedDeck, NoMemory>
    requires spelt { Decks bytes.now deck }
    requires few { length bytes.now ≤ MOST_DECK_BYTES }
    ensures { (meanwhile : Items ℕ) × GoesOut K.held K.faults K.sure sink.old sink.new meanwhile
        × IsProgress meanwhile × IfOk result (IsBreakDeck bytes.now deck meanwhile) }
{
    programs_of_a_deck_can_be_judged();
    unrefused_programs_are_accepted();
    an_accepted_deck_meets_the_premises();
    a_deck_keeps_the_limits();
    a_schedule_asks_for_few_events();
    let judged = judged_deck(alloc, bytes, deck.site.processes.as_slice())?;
    if judged.refused {
        let told = put_searched(alloc, judged.told, deck, sink)?;
        return Ok(JudgedDeck {
            refused: true,
            told,
        });
    }
    let text = accepted(alloc)?;
    Ok(JudgedDeck {
        refused: false,
        told: text,
    })
}

fn accepted(alloc: Global) -> Result<List<u8>, NoMemory>
    ensures { IfOk result (λ told. told ≡ accepted_text) }
{
    let mut told = List::new(alloc);
    put(
        &mut told,
        b"no program is refused: no run of this deck breaks\n",
    )?;
    Ok(told)
}

/// Puts what came of the search among the runs of a deck behind the text.
fn put_searched<K: Sink>(
    alloc: Global,
    text: List<u8>,
    deck: Deck,
    sink: &mut K,
) -> Result<List<u8>, NoMemory>
    requires startable { IsStartable deck.site }
    requires few { (stop : Option ProcessorStop) → AsksForFewEvents deck.site deck.lines stop }
    ensures { (meanwhile : Items ℕ) × GoesOut K.held K.faults K.sure sink.old sink.new meanwhile
        × IsProgress meanwhile
        × IfOk result (λ told. (search : Search) × IsSearch deck.site deck.lines search
        × (meanwhile ≡ search_progress deck.site search) × (told ≡ text ++ search_text deck.site search)) }
{
    let Deck { site, lines } = deck;
    let site = Shared::new(alloc, site)?;
    let search = search_breaks(alloc, &site, lines.as_slice(), sink)?;
    let mut told = text;
    put_search(alloc, &mut told, site.get(), &search)?;
    Ok(told)
}
