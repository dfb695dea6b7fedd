ghost use Rattle.std.specs.Prelude.{◌≡◌, ◌≤◌, ◌++◌, length, OnOk};
ghost use Rattle.finding_text.specs.PairText.{broken_text, pair_text, pair_texts, program_text};
ghost use Rattle.finding_text.specs.PairText.{cause_line, head_text, hint_line, praise_text, refused_line};
ghost use Rattle.finding_text.specs.PairText.{refused_text, way_text};
ghost use Rattle.gd_words.specs.declared.limits.TheConstants.{MOST_DECK_BYTES};

use crate::carried::put_accepted;
use crate::deck_place::pair_line;
use crate::lacking::put_remedy;
use crate::sentence::{hint_of, put_cause, put_refusal};
use crate::steps::{Way, put_path};
use gd_words::{List, Name, NoMemory};
use pair_findings::{Finding, PairFinding};
use path_semantics::RefusalFault;
use std::alloc::Global;
use tal_tree::{Kind, ProcessSpec, Program};
use text_pieces::put;

/// Puts what is found of the pairs of a deck behind the text, in order.
pub fn put_pairs(
    alloc: Global,
    text: &mut List<u8>,
    bytes: &[u8],
    specs: &[ProcessSpec],
    findings: &[Finding],
) -> Result<(), NoMemory>
    requires { length bytes.now ≤ MOST_DECK_BYTES }
    ensures { OnOk result (text.new ≡ text.old ++ pair_texts bytes.now specs.now findings.now) }
{
    let mut specs_left = specs;
    let mut findings_left = findings;
    while let Some((spec, later_specs)) = specs_left.split_first() {
        let Some((finding, later_findings)) = findings_left.split_first() else {
            return Ok(());
        };
        put_pair(alloc, text, bytes, spec, finding)?;
        specs_left = later_specs;
        findings_left = later_findings;
    }
    Ok(())
}

fn put_pair(
    alloc: Global,
    text: &mut List<u8>,
    bytes: &[u8],
    spec: &ProcessSpec,
    finding: &Finding,
) -> Result<(), NoMemory>
    requires { length bytes.now ≤ MOST_DECK_BYTES }
    ensures { OnOk result (text.new ≡ text.old ++ pair_text bytes.now spec.now.name spec.now.what finding.now) }
{
    match &spec.what {
        Kind::Disc { .. } => Ok(()),
        Kind::Pair(program) => match finding {
            Finding::Disc => Ok(()),
            Finding::Pair(found) => put_program(alloc, text, bytes, &spec.name, program, found),
        },
    }
}

fn put_program(
    alloc: Global,
    text: &mut List<u8>,
    bytes: &[u8],
    name: &Name,
    program: &Program,
    found: &PairFinding,
) -> Result<(), NoMemory>
    requires { length bytes.now ≤ MOST_DECK_BYTES }
    ensures { OnOk result (text.new ≡ text.old ++ program_text bytes.now name.now program.now found.now) }
{
    let start = pair_line(bytes, name);
    match &found.refusal {
        None => {
            put_praise(text, name.text())?;
            put_accepted(alloc, text, bytes, start, program, found)
        }
        Some(refusal) => put_refused(
            alloc,
            text,
            bytes,
            start,
            name.text(),
            program,
            found,
            refusal,
        ),
    }
}

/// Puts what is found of a refused program, which begins behind a line of the deck, behind the text.
fn put_refused(
    alloc: Global,
    text: &mut List<u8>,
    bytes: &[u8],
    start: u64,
    name: &[u8],
    program: &Program,
    found: &PairFinding,
    refusal: &RefusalFault,
) -> Result<(), NoMemory>
    requires { start ≤ MOST_DECK_BYTES }
    ensures { OnOk result (text.new ≡ text.old
        ++ refused_text bytes.now start name.now program.now found.now refusal.now) }
{
    put_head(text, name, program, refusal)?;
    put_broken(text, bytes, start, program, found, refusal)?;
    put_remedy(alloc, text, start, program, found)?;
    put_cause_line(text, name, program, refusal)
}

fn put_praise(text: &mut List<u8>, name: &[u8]) -> Result<(), NoMemory>
    ensures { OnOk result (text.new ≡ text.old ++ praise_text name.now) }
{
    put(text, b"the program of ")?;
    put(text, name)?;
    put(text, b" is accepted\n")
}

fn put_head(
    text: &mut List<u8>,
    name: &[u8],
    program: &Program,
    refusal: &RefusalFault,
) -> Result<(), NoMemory>
    ensures { OnOk result (text.new ≡ text.old ++ head_text name.now program.now refusal.now) }
{
    put(text, b"error: ")?;
    put_refusal(text, name, program, refusal)?;
    put(text, b"\n")
}

/// Puts the path that breaks behind the text, if the cause has one.
fn put_broken(
    text: &mut List<u8>,
    bytes: &[u8],
    start: u64,
    program: &Program,
    found: &PairFinding,
    refusal: &RefusalFault,
) -> Result<(), NoMemory>
    requires { start ≤ MOST_DECK_BYTES }
    ensures { OnOk result (text.new ≡ text.old
        ++ broken_text bytes.now start program.now found.now refusal.now) }
{
    match refusal {
        RefusalFault::Broken { reason, path } => {
            let way = Way {
                start,
                reason: *reason,
                count: path.len(),
            };
            put_way(text, bytes, program, found, way, path.as_slice())
        }
        _ => Ok(()),
    }
}

fn put_way(
    text: &mut List<u8>,
    bytes: &[u8],
    program: &Program,
    found: &PairFinding,
    way: Way,
    path: &[u16],
) -> Result<(), NoMemory>
    requires start { way.start ≤ MOST_DECK_BYTES }
    requires count { way.count ≡ length path.now }
    ensures { OnOk result (text.new ≡ text.old ++ way_text bytes.now program.now found.now way path.now) }
{
    put(text, b"a shortest way there, by lines of the deck:\n")?;
    put_path(text, bytes, program, found, way, path)
}

/// Puts what is lost and the line that `guardian` writes behind the text.
fn put_cause_line(
    text: &mut List<u8>,
    name: &[u8],
    program: &Program,
    refusal: &RefusalFault,
) -> Result<(), NoMemory>
    ensures { OnOk result (text.new ≡ text.old ++ cause_line name.now program.now refusal.now) }
{
    put_hint(text, refusal)?;
    put_refused_line(text, name, program, refusal)
}

fn put_refused_line(
    text: &mut List<u8>,
    name: &[u8],
    program: &Program,
    refusal: &RefusalFault,
) -> Result<(), NoMemory>
    ensures { OnOk result (text.new ≡ text.old ++ refused_line name.now program.now refusal.now) }
{
    put(text, b"guardian: REFUSED ")?;
    put(text, name)?;
    put(text, b" ")?;
    put_cause(text, program, refusal)?;
    put(text, b"\n")
}

fn put_hint(text: &mut List<u8>, refusal: &RefusalFault) -> Result<(), NoMemory>
    ensures { OnOk result (text.new ≡ text.old ++ hint_line refusal.now) }
{
    put(text, b"hint: ")?;
    put(text, hint_of(refusal))?;
    put(text, b"\n")
}
