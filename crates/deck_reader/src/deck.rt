ghost use Rattle.std.specs.Prelude.{◌≡◌, ◌≢◌, ◌<◌, ◌≤◌, ◌↔◌, ℕ, Some, option_map, length, IfOk, IfErr, Err};
ghost use Rattle.std.specs.Prelude.{MatchResult};
ghost use Rattle.gd_words.specs.Memory.{no_memory};
ghost use Rattle.deck_reader.specs.Decks.{Decks, IsDeckOf, AreTerminalsOf, IsTerminalOf};
ghost use Rattle.deck_reader.specs.Names.{IsMisnamedTarget, earlier, targets_misnamed};
ghost use Rattle.deck_reader.specs.Refusals.{IsOutlineFault, IsRefusalOf, Tells, name_fault};
ghost use Rattle.deck_reader.specs.Sizes.{text_size};
ghost use Rattle.tal_tree.specs.declared.fault.DeckFault.{DeckFault};
ghost use Rattle.deck_reader.specs.declared.deck.Deck.{Deck};
ghost use Rattle.gd_words.specs.declared.limits.TheConstants.{MOST_DECK_BYTES, MOST_PROCESSES};

use crate::names::{NameFault, earlier, earlier_than, event_misnamed, name_fault};
use crate::outline::{Outline, ProcessLines, TerminalLines, place_of};
use crate::programs::{ReadProcesses, breach_fault, processes_of};
use crate::told::{Told, outline_of};
use gd_words::limits::MOST_DECK_BYTES;
use gd_words::{List, Name, NoMemory};
use name_table::NameTable;
use schedule::Line;
use std::alloc::Global;
use tal_tree::{DeckFault, Site, TalFault, TerminalSpec};

/// A system and the schedule of its run.
#[derive(Drop)]
pub struct Deck {
    pub site: Site,
    pub lines: List<Line>,
}

/// The deck that the bytes spell, or the one fault for which they are refused.
pub fn read_deck(alloc: Global, bytes: &[u8]) -> Result<Deck, DeckFault>
    ensures ok { IfOk result (λ deck. Decks bytes.now deck) }
    ensures too_long { (result ≡ Err DeckFault.TooLong) ↔ (MOST_DECK_BYTES < length bytes.now) }
    ensures err { IfErr result (λ fault. fault ≢ DeckFault.NoMemory no_memory → IsRefusalOf bytes.now fault) }
    ensures told { (number : ℕ) → result ≢ Err (DeckFault.Program number (TalFault.NoMemory no_memory)) }
{
    if bytes.len() > MOST_DECK_BYTES {
        return Err(DeckFault::TooLong);
    }
    match outline_of(alloc, bytes) {
        Err(memory) => Err(DeckFault::NoMemory(memory)),
        Ok(Told::Broken(breach)) => Err(breach_fault(alloc, &breach)),
        Ok(Told::Whole(outline)) => deck_of(alloc, outline),
    }
}

/// The deck of an outline: programs are read and names looked up.
fn deck_of(alloc: Global, outline: Outline) -> Result<Deck, DeckFault>
    requires short { text_size outline.processes < 4294967295 }
    requires few { length outline.processes ≤ MOST_PROCESSES }
    ensures ok { IfOk result (λ deck. IsDeckOf outline deck) }
    ensures err { IfErr result (λ fault. Tells (IsOutlineFault outline) fault) }
{
    let Outline {
        processors,
        processes,
        terminals,
        events,
    } = outline;
    let ReadProcesses { specs, misnamed } = processes_of(alloc, &processes)?;
    let event = event_misnamed(events.unknown);
    match terminals_of(alloc, &processes, terminals)? {
        Err(target) => Err(target_fault(misnamed, target, event)),
        Ok(terminals) => match earlier(misnamed, event) {
            Some(misnamed) => Err(name_fault(misnamed)),
            None => {
                let site = Site {
                    processors,
                    processes: specs,
                    terminals,
                };
                let lines = events.lines;
                Ok(Deck { site, lines })
            }
        },
    }
}

/// The fault of a deck in which a terminal's target isn't there.
fn target_fault(pair: Option<NameFault>, target: NameFault, event: Option<NameFault>) -> DeckFault
    ensures { option_map name_fault (earlier (earlier pair (Some target)) event) ≡ Some result }
{
    match pair {
        None => name_fault(earlier_than(target, event)),
        Some(pair) => name_fault(earlier_than(earlier_than(pair, Some(target)), event)),
    }
}

/// The terminals of their lines, or the first that asks a process that isn't there.
fn terminals_of(
    alloc: Global,
    processes: &NameTable<ProcessLines>,
    terminals: NameTable<TerminalLines>,
) -> Result<Result<List<TerminalSpec>, NameFault>, NoMemory>
    requires few { length processes.now ≤ MOST_PROCESSES }
    ensures { IfOk result (λ specs. MatchResult specs (λ specs. AreTerminalsOf processes.now terminals specs)
        (λ target. targets_misnamed processes.now terminals ≡ Some target)) }
{
    let mut specs = List::new(alloc);
    for (name, lines) in terminals.into_entries() {
        match terminal_of(processes, name, lines) {
            Err(target) => return Ok(Err(target)),
            Ok(terminal) => specs.push(terminal)?,
        }
    }
    Ok(Ok(specs))
}

/// The terminal of a terminal's lines, or its line, where it asks a process that isn't there.
fn terminal_of(
    processes: &NameTable<ProcessLines>,
    name: Name,
    lines: TerminalLines,
) -> Result<TerminalSpec, NameFault>
    requires few { length processes.now ≤ MOST_PROCESSES }
    ensures { MatchResult result (λ terminal. IsTerminalOf processes.now (name, lines) terminal)
        (λ target. IsMisnamedTarget processes.now lines target) }
{
    let TerminalLines {
        line,
        target,
        requests,
    } = lines;
    match place_of(processes, &target) {
        None => Err(NameFault { line, own: false }),
        Some(target) => Ok(TerminalSpec {
            name,
            target,
            requests,
        }),
    }
}
