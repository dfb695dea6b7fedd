ghost use Rattle.std.specs.Prelude.{◌≡◌, ◌≤◌, length, IfOk};
ghost use Rattle.accepted_decks.specs.deck_reader.specs.Decks.{Decks};
ghost use Rattle.accepted_decks.specs.verdicts.specs.Refused.{AreAccepted};
ghost use Rattle.explain_left.specs.LeftRuns.{IsLeftText, IsTextOfRun, run_text};
ghost use Rattle.gd_words.specs.declared.limits.TheConstants.{MOST_DECK_BYTES};

use crate::ending::put_ending;
use accepted_decks::{Deck, an_accepted_deck_meets_the_premises};
use gd_words::{List, NoMemory};
use left_text::{Left, left_of, put_left, view};
use logs::Shared;
use noted_runs::{NotedRan, run};
use player::ProcessorStop;
use std::alloc::Global;
use tal_tree::Site;

/// Runs the deck of these bytes, whose programs are accepted, with a stop of a processor where one is given, and tells
/// what is left.
pub fn left_after(
    alloc: Global,
    bytes: &[u8],
    deck: Deck,
    stop: Option<ProcessorStop>,
) -> Result<List<u8>, NoMemory>
    requires spelt { Decks bytes.now deck }
    requires few { length bytes.now ≤ MOST_DECK_BYTES }
    requires accepted { AreAccepted deck.site.processes }
    ensures { IfOk result (λ text. IsLeftText bytes.now deck stop text) }
{
    an_accepted_deck_meets_the_premises();
    let Deck { site, lines } = deck;
    let site = Shared::new(alloc, site)?;
    let noted = run(alloc, &site, lines.as_slice(), stop)?;
    text_of_run(alloc, bytes, site.get(), &noted)
}

/// What is told of a run.
fn text_of_run(
    alloc: Global,
    bytes: &[u8],
    site: &Site,
    noted: &NotedRan,
) -> Result<List<u8>, NoMemory>
    requires { length bytes.now ≤ MOST_DECK_BYTES }
    ensures { IfOk result (λ text. IsTextOfRun bytes.now site.now noted.now text) }
{
    let view = view(alloc, &noted.ran.machine)?;
    let left = left_of(alloc, site, &view)?;
    text_of_left(alloc, bytes, site, noted, &left)
}

/// What is told of a run and of what is left then.
fn text_of_left(
    alloc: Global,
    bytes: &[u8],
    site: &Site,
    noted: &NotedRan,
    left: &Left,
) -> Result<List<u8>, NoMemory>
    requires { length bytes.now ≤ MOST_DECK_BYTES }
    ensures { IfOk result (λ text. text ≡ run_text bytes.now site.now noted.now left.now) }
{
    let mut text = List::new(alloc);
    put_ending(&mut text, site, noted.ran.ending)?;
    put_left(&mut text, bytes, site, left, noted.steps.as_slice())?;
    Ok(text)
}
