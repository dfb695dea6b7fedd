ghost use Rattle.std.specs.Prelude.{◌≡◌, ◌≤◌, ◌+◌, ◌++◌, length, OnOk};
ghost use Rattle.finding_text.specs.Carried.{accepted_text, carried_text, carries_text, needless_text, sends_text};
ghost use Rattle.finding_text.specs.Carried.{advised_of, lead_of, one_sent, place_line, sent_text, unneeded_text};
ghost use Rattle.gd_words.specs.declared.limits.TheConstants.{MOST_DECK_BYTES};

use crate::deck_place::put_source;
use crate::lacking::put_names;
use crate::lists::{Listed, all_listed, needless};
use crate::names::put_listed;
use crate::steps::put_place;
use gd_words::{List, NoMemory};
use pair_findings::{Advised, NamedCheckpoint, PairFinding, Remedy};
use std::alloc::Global;
use tal_tree::Program;
use text_pieces::put;

/// Puts what the CHECKPOINTs of an accepted program send behind the text, and what they needn't name; the program
/// begins behind a line of the deck.
pub(crate) fn put_accepted(
    alloc: Global,
    text: &mut List<u8>,
    bytes: &[u8],
    start: u64,
    program: &Program,
    finding: &PairFinding,
) -> Result<(), NoMemory>
    requires { start ≤ MOST_DECK_BYTES }
    ensures { OnOk result (text.new ≡ text.old ++ accepted_text bytes.now start program.now finding.now) }
{
    let checkpoints = finding.checkpoints.as_slice();
    let advised = advised_of(&finding.remedy);
    put_carries(alloc, text, bytes, start, program, checkpoints, advised)
}

/// The lists that mend a program.
fn advised_of(remedy: &Remedy) -> &[Advised]
    ensures { result.now ≡ advised_of remedy.now }
{
    match remedy {
        Remedy::Lists(advice) => advice.lists.as_slice(),
        _ => &[],
    }
}

fn put_carries(
    alloc: Global,
    text: &mut List<u8>,
    bytes: &[u8],
    start: u64,
    program: &Program,
    checkpoints: &[NamedCheckpoint],
    advised: &[Advised],
) -> Result<(), NoMemory>
    requires { start ≤ MOST_DECK_BYTES }
    ensures { OnOk result (text.new ≡ text.old
        ++ carries_text bytes.now start program.now checkpoints.now advised.now) }
{
    for named in checkpoints {
        put_carried(alloc, text, bytes, start, program, named, advised)?;
    }
    Ok(())
}

#[tactic(auto, unfolding(crate::specs::Carried::carried_text))]
fn put_carried(
    alloc: Global,
    text: &mut List<u8>,
    bytes: &[u8],
    start: u64,
    program: &Program,
    named: &NamedCheckpoint,
    advised: &[Advised],
) -> Result<(), NoMemory>
    requires { start ≤ MOST_DECK_BYTES }
    ensures { OnOk result (text.new ≡ text.old ++ carried_text bytes.now start program.now named.now advised.now) }
{
    let line = start + u64::from(named.line);
    let all = all_listed(alloc, named)?;
    let needless = needless(alloc, named, advised)?;
    put_place_line(text, bytes, line)?;
    put_sends(text, program, all.as_slice(), needless.as_slice())
}

/// Puts what a CHECKPOINT sends that names all these behind the text, and which of them it needn't.
fn put_sends(
    text: &mut List<u8>,
    program: &Program,
    all: &[Listed],
    needless: &[Listed],
) -> Result<(), NoMemory>
    ensures { OnOk result (text.new ≡ text.old ++ sends_text program.now all.now needless.now) }
{
    put(
        text,
        b"         sends the stack, the requests that were taken",
    )?;
    put_sent(text, program, all)?;
    put_needless(text, program, needless)
}

/// Puts a line of the deck with its number behind the text.
pub fn put_place_line(text: &mut List<u8>, bytes: &[u8], line: u64) -> Result<(), NoMemory>
    ensures { OnOk result (text.new ≡ text.old ++ place_line bytes.now line) }
{
    put_place(text, line)?;
    put_source(text, bytes, line)?;
    put(text, b"\n")
}

/// Puts what is sent of each of these behind the text.
fn put_sent(text: &mut List<u8>, program: &Program, all: &[Listed]) -> Result<(), NoMemory>
    ensures { OnOk result (text.new ≡ text.old ++ sent_text program.now all.now) }
{
    for listed in all {
        put_one(text, program, *listed)?;
    }
    put(text, b"\n")
}

fn put_one(text: &mut List<u8>, program: &Program, listed: Listed) -> Result<(), NoMemory>
    ensures { OnOk result (text.new ≡ text.old ++ one_sent program.now listed) }
{
    put(text, lead_of(listed))?;
    put_listed(text, program, listed)
}

/// What stands before a name that is sent: of a global its words are sent, of a file a number.
fn lead_of(listed: Listed) -> &'static [u8]
    ensures { result.now ≡ lead_of listed }
{
    match listed {
        Listed::Item(_) => b", ",
        Listed::File(_) => b", the number of the next request on ",
    }
}

fn put_needless(text: &mut List<u8>, program: &Program, needless: &[Listed]) -> Result<(), NoMemory>
    ensures { OnOk result (text.new ≡ text.old ++ needless_text program.now needless.now) }
{
    if needless.is_empty() {
        return Ok(());
    }
    put_unneeded(text, program, needless)
}

fn put_unneeded(text: &mut List<u8>, program: &Program, needless: &[Listed]) -> Result<(), NoMemory>
    ensures { OnOk result (text.new ≡ text.old ++ unneeded_text program.now needless.now) }
{
    put(text, b"         needn't name ")?;
    put_names(text, program, needless)?;
    put(text, b"\n")
}
