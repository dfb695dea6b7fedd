//! What is due of a deck and the report that follows it.
ghost use Rattle.std.specs.Prelude.{◌≢◌, ◌<◌, ◌≤◌, length};
ghost use Rattle.std.specs.Io.KnownBytes.{IsAtEnd};
ghost use Rattle.command_dues.specs.plain_machine.specs.Standing.{IsPlayable};
ghost use Rattle.command_dues.specs.Decided.{IsDueOfVerify, IsOfWholeDeck, IsSpelt};
ghost use Rattle.command_dues.specs.Verified.{IsDueOfInput, IsDueOfJudged, IsDueOfReport};
ghost use Rattle.command_dues.specs.Written.{CanBeWritten};
ghost use Rattle.gd_words.specs.declared.limits.TheConstants.{MOST_INPUT_BYTES};

use crate::decide::due_of_fault;
use accepted_decks::an_accepted_deck_meets_the_premises;
use command_dues::{Deck, Due, RefusedSite, VerifyFault, deck_end, read_deck, verify};
use gd_io::{Source, SourceFault, read_all};
use gd_words::limits::MOST_INPUT_BYTES;
use std::alloc::Global;
use tal_tree::{DeckFault, Site};
use verdicts::first_refused;

/// Judges a report by the deck before it.
pub(crate) fn due_of_verify<S: Source>(alloc: Global, source: &mut S) -> Due
    ensures due { IsDueOfVerify (S.left source.old) (S.faults source.old) (S.faults source.new) result }
    ensures written { CanBeWritten result }
    ensures unfailing { S.sure source.old → result ≢ Due.ReadFault }
    ensures read_whole { IsOfWholeDeck result → IsAtEnd (S.left source.new) }
{
    match read_all(alloc, source, MOST_INPUT_BYTES) {
        Ok(bytes) => due_of_input(alloc, bytes.as_slice()),
        Err(SourceFault::Failed) => Due::ReadFault,
        Err(SourceFault::TooLong) => Due::DeckRefused(DeckFault::TooLong),
        Err(SourceFault::NoMemory(memory)) => Due::NoMemory(memory),
    }
}

fn due_of_input(alloc: Global, bytes: &[u8]) -> Due
    requires { length bytes.now ≤ MOST_INPUT_BYTES }
    ensures due { IsDueOfInput bytes.now result }
    ensures written { CanBeWritten result }
{
    let (text, report) = bytes.split_at(deck_end(bytes));
    match read_deck(alloc, text) {
        Ok(deck) => due_of_judged(alloc, deck, report),
        Err(fault) => due_of_fault(fault),
    }
}

fn due_of_judged(alloc: Global, deck: Deck, report: &[u8]) -> Due
    requires spelt { IsSpelt deck }
    requires short { length report.now < 4294967295 }
    ensures due { IsDueOfJudged deck report.now result }
    ensures written { CanBeWritten result }
{
    an_accepted_deck_meets_the_premises();
    match first_refused(alloc, deck.site.processes.as_slice()) {
        Err(memory) => Due::NoMemory(memory),
        Ok(None) => due_of_report(alloc, &deck.site, report),
        Ok(Some(found)) => {
            let Deck { site, lines: _ } = deck;
            Due::ProgramRefused(RefusedSite { site, found })
        }
    }
}

fn due_of_report(alloc: Global, site: &Site, report: &[u8]) -> Due
    requires playable { IsPlayable site.now }
    requires short { length report.now < 4294967295 }
    ensures due { IsDueOfReport site.now report.now result }
    ensures written { CanBeWritten result }
{
    match verify(alloc, site, report) {
        Ok(acts) => Due::Verified(acts),
        Err(VerifyFault::Rejected { line, why }) => Due::Rejected { line, why },
        Err(VerifyFault::NoMemory(memory)) => Due::NoMemory(memory),
    }
}
