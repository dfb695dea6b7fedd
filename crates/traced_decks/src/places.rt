ghost use Rattle.std.specs.Prelude.{◌≡◌, ◌≤◌, ◌+◌, length, map, IfOk};
ghost use Rattle.statement_lines.specs.Lines as statements;
ghost use Rattle.deck_lines.specs.Lines as decks;
ghost use Rattle.traced_decks.specs.PlacesOf as placed;
ghost use Rattle.gd_words.specs.declared.limits.TheConstants.{MOST_DECK_BYTES};

use deck_lines::next_line;
use finding_text::pair_line;
use gd_words::{List, NoMemory};
use statement_lines::lines_of;
use std::alloc::Global;
use tal_tree::{Kind, ProcessSpec, Program, Site};
use trace_lines::Places;

/// Where the statements of a site's programs stand in the deck that bytes spell.
pub fn places_of(alloc: Global, bytes: &[u8], site: &Site) -> Result<Places, NoMemory>
    requires { length bytes.now ≤ MOST_DECK_BYTES }
    ensures { IfOk result (λ places. places ≡ placed.places_of bytes.now site.now) }
{
    let lines = deck_lines(alloc, bytes)?;
    let programs = all_programs(alloc, bytes, site.processes.as_slice())?;
    Ok(Places { lines, programs })
}

fn deck_lines(alloc: Global, bytes: &[u8]) -> Result<List<List<u8>>, NoMemory>
    ensures { IfOk result (λ lines. lines ≡ decks.lines_of bytes.now) }
{
    let mut lines = List::new(alloc);
    let mut left = bytes;
    while let Some((line, rest)) = next_line(left) {
        let copied = copied(alloc, line)?;
        lines.push(copied)?;
        left = rest;
    }
    Ok(lines)
}

fn copied(alloc: Global, line: &[u8]) -> Result<List<u8>, NoMemory>
    ensures { IfOk result (λ copy. copy ≡ line.now) }
{
    let mut copy = List::new(alloc);
    copy.extend_from_slice(line)?;
    Ok(copy)
}

fn all_programs(
    alloc: Global,
    bytes: &[u8],
    specs: &[ProcessSpec],
) -> Result<List<List<u64>>, NoMemory>
    requires { length bytes.now ≤ MOST_DECK_BYTES }
    ensures { IfOk result (λ all. all ≡ map (placed.program_places bytes.now) specs.now) }
{
    let mut all = List::new(alloc);
    for spec in specs {
        let places = program_places(alloc, bytes, spec)?;
        all.push(places)?;
    }
    Ok(all)
}

fn program_places(alloc: Global, bytes: &[u8], spec: &ProcessSpec) -> Result<List<u64>, NoMemory>
    requires { length bytes.now ≤ MOST_DECK_BYTES }
    ensures { IfOk result (λ places. places ≡ placed.program_places bytes.now spec.now) }
{
    match &spec.what {
        Kind::Disc { .. } => Ok(List::new(alloc)),
        Kind::Pair(program) => lines_behind(alloc, pair_line(bytes, &spec.name), program),
    }
}

/// The lines of a program's numbers in a deck, where its text begins behind a line.
fn lines_behind(alloc: Global, start: u64, program: &Program) -> Result<List<u64>, NoMemory>
    requires { start ≤ MOST_DECK_BYTES }
    ensures { IfOk result (λ lines. lines ≡ map (λ line. start + line) (statements.lines_of program.now)) }
{
    let lines = lines_of(alloc, program)?;
    all_behind(alloc, start, lines.as_slice())
}

fn all_behind(alloc: Global, start: u64, lines: &[u32]) -> Result<List<u64>, NoMemory>
    requires { start ≤ MOST_DECK_BYTES }
    ensures { IfOk result (λ all. all ≡ map (λ line. start + line) lines.now) }
{
    let mut all = List::new(alloc);
    for line in lines {
        all.push(start + u64::from(*line))?;
    }
    Ok(all)
}
