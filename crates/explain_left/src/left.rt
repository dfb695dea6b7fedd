ghost use Rattle.std.specs.Prelude.{◌≤◌, length, IfOk};
ghost use Rattle.explain_why.specs.deck_reader.specs.Decks.{Decks};
ghost use Rattle.accepted_decks.specs.verdicts.specs.Refused.{AreAccepted};
ghost use Rattle.explain_left.specs.Left.{IsLeftDeck, IsOfRun};
ghost use Rattle.gd_words.specs.declared.limits.TheConstants.{MOST_DECK_BYTES};

use crate::run::left_after;
use explain_why::{
    Deck, JudgedDeck, judged_deck, programs_of_a_deck_can_be_judged,
    unrefused_programs_are_accepted,
};
use gd_words::NoMemory;
use player::ProcessorStop;
use std::alloc::Global;

/// Where a program of the deck is refused, what is told of its programs. Else the deck is run, with a stop of a
/// processor where one is given, and what is left is told.
pub fn left_deck(
    alloc: Global,
    bytes: &[u8],
    deck: Deck,
    stop: Option<ProcessorStop>,
) -> Result<JudgedDeck, NoMemory>
    requires spelt { Decks bytes.now deck }
    requires few { length bytes.now ≤ MOST_DECK_BYTES }
    ensures { IfOk result (λ judged. IsLeftDeck bytes.now deck stop judged) }
{
    programs_of_a_deck_can_be_judged();
    unrefused_programs_are_accepted();
    let judged = judged_deck(alloc, bytes, deck.site.processes.as_slice())?;
    if judged.refused {
        return Ok(judged);
    }
    left_of_run(alloc, bytes, deck, stop)
}

fn left_of_run(
    alloc: Global,
    bytes: &[u8],
    deck: Deck,
    stop: Option<ProcessorStop>,
) -> Result<JudgedDeck, NoMemory>
    requires spelt { Decks bytes.now deck }
    requires few { length bytes.now ≤ MOST_DECK_BYTES }
    requires accepted { AreAccepted deck.site.processes }
    ensures { IfOk result (λ judged. IsOfRun bytes.now deck stop judged) }
{
    let told = left_after(alloc, bytes, deck, stop)?;
    Ok(JudgedDeck {
        refused: false,
        told,
    })
}
