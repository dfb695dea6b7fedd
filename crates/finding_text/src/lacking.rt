ghost use Rattle.std.specs.Prelude.{◌≡◌, ◌≤◌, ◌+◌, ◌++◌, length, OnOk};
ghost use Rattle.std.specs.Option.{option_copied};
ghost use Rattle.finding_text.specs.Lacking.{depth_text, depths_text, kept_text, lack_text, lacks_text};
ghost use Rattle.pair_findings.specs.advice.specs.reason_dues.specs.Amounts.{depth_in};
ghost use Rattle.finding_text.specs.Lacking.{lists_text, names_text, others_text, remedy_text, unmendable_text};
ghost use Rattle.finding_text.specs.Lacking.{behind_text, call_line, deepest_text, lacking_line, last_line};
ghost use Rattle.finding_text.specs.Lacking.{listed_text, unmended_text, whole_text};
ghost use Rattle.gd_words.specs.declared.limits.TheConstants.{MOST_DECK_BYTES};

use crate::lists::{Listed, all_listed, lacking};
use crate::names::{put_file, put_listed};
use crate::steps::line_among;
use gd_words::{List, NoMemory};
use pair_findings::{Advice, Advised, NamedCheckpoint, PairFinding, Remedy};
use path_semantics::Reason;
use std::alloc::Global;
use tal_tree::{FileUse, Program};
use text_pieces::{put, put_number};

/// Puts what a refused program lacks behind the text; the program begins behind a line of the deck.
pub(crate) fn put_remedy(
    alloc: Global,
    text: &mut List<u8>,
    start: u64,
    program: &Program,
    finding: &PairFinding,
) -> Result<(), NoMemory>
    requires { start ≤ MOST_DECK_BYTES }
    ensures { OnOk result (text.new ≡ text.old ++ remedy_text start program.now finding.now) }
{
    match &finding.remedy {
        Remedy::Lists(advice) => put_lists(alloc, text, start, program, finding, advice),
        Remedy::Unmendable { reason, path } => {
            let line = last_line(finding.lines.as_slice(), path);
            put_unmendable(text, program, *reason, start + u64::from(line))
        }
        Remedy::OutOfBounds => Ok(()),
    }
}

fn put_lists(
    alloc: Global,
    text: &mut List<u8>,
    start: u64,
    program: &Program,
    finding: &PairFinding,
    advice: &Advice,
) -> Result<(), NoMemory>
    requires { start ≤ MOST_DECK_BYTES }
    ensures { OnOk result (text.new ≡ text.old ++ lists_text start program.now finding.now advice.now) }
{
    let advised = advice.lists.as_slice();
    put_lacks(
        alloc,
        text,
        start,
        program,
        finding.checkpoints.as_slice(),
        advised,
    )?;
    put_depths(text, program, advice.depths.as_slice())
}

fn put_lacks(
    alloc: Global,
    text: &mut List<u8>,
    start: u64,
    program: &Program,
    checkpoints: &[NamedCheckpoint],
    advised: &[Advised],
) -> Result<(), NoMemory>
    requires { start ≤ MOST_DECK_BYTES }
    ensures { OnOk result (text.new ≡ text.old ++ lacks_text start program.now checkpoints.now advised.now) }
{
    for named in checkpoints {
        put_lack(alloc, text, start, program, named, advised)?;
    }
    Ok(())
}

fn put_lack(
    alloc: Global,
    text: &mut List<u8>,
    start: u64,
    program: &Program,
    named: &NamedCheckpoint,
    advised: &[Advised],
) -> Result<(), NoMemory>
    requires { start ≤ MOST_DECK_BYTES }
    ensures { OnOk result (text.new ≡ text.old ++ lack_text start program.now named.now advised.now) }
{
    let lacking = lacking(alloc, named, advised)?;
    let mut all = all_listed(alloc, named)?;
    all.extend_from_slice(lacking.as_slice())?;
    let line = start + u64::from(named.line);
    put_listed_names(text, program, line, all.as_slice(), lacking.as_slice())
}

/// Puts a CHECKPOINT as it has to read behind the text, where it lacks anything.
fn put_listed_names(
    text: &mut List<u8>,
    program: &Program,
    line: u64,
    all: &[Listed],
    lacking: &[Listed],
) -> Result<(), NoMemory>
    ensures { OnOk result (text.new ≡ text.old ++ listed_text program.now line all.now lacking.now) }
{
    if lacking.is_empty() {
        return Ok(());
    }
    put_whole(text, program, line, all, lacking)
}

/// Puts what a CHECKPOINT lacks, and all that it has to name, behind the text.
fn put_whole(
    text: &mut List<u8>,
    program: &Program,
    line: u64,
    all: &[Listed],
    lacking: &[Listed],
) -> Result<(), NoMemory>
    ensures { OnOk result (text.new ≡ text.old ++ whole_text program.now line all.now lacking.now) }
{
    put_lacking(text, program, line, lacking)?;
    put_call(text, program, all)
}

fn put_lacking(
    text: &mut List<u8>,
    program: &Program,
    line: u64,
    lacking: &[Listed],
) -> Result<(), NoMemory>
    ensures { OnOk result (text.new ≡ text.old ++ lacking_line program.now line lacking.now) }
{
    put(text, b"lacking: line ")?;
    put_number(text, line)?;
    put(text, b" has to name ")?;
    put_names(text, program, lacking)?;
    put(text, b":\n")
}

fn put_call(text: &mut List<u8>, program: &Program, all: &[Listed]) -> Result<(), NoMemory>
    ensures { OnOk result (text.new ≡ text.old ++ call_line program.now all.now) }
{
    put(text, b"         CALL CHECKPOINT(")?;
    put_names(text, program, all)?;
    put(text, b");\n")
}

/// Puts names behind the text, with commas between them.
pub(crate) fn put_names(
    text: &mut List<u8>,
    program: &Program,
    listed: &[Listed],
) -> Result<(), NoMemory>
    ensures { OnOk result (text.new ≡ text.old ++ names_text program.now listed.now) }
{
    match listed.split_first() {
        None => Ok(()),
        Some((first, others)) => {
            put_listed(text, program, *first)?;
            put_others(text, program, others)
        }
    }
}

fn put_others(text: &mut List<u8>, program: &Program, others: &[Listed]) -> Result<(), NoMemory>
    ensures { OnOk result (text.new ≡ text.old ++ others_text program.now others.now) }
{
    for listed in others {
        put(text, b", ")?;
        put_listed(text, program, *listed)?;
    }
    Ok(())
}

/// Puts the files whose OPENs keep too few replies behind the text.
fn put_depths(text: &mut List<u8>, program: &Program, depths: &[u8]) -> Result<(), NoMemory>
    ensures { OnOk result (text.new ≡ text.old ++ depths_text program.now 0 depths.now) }
{
    let mut left = depths;
    let mut file: usize = 0;
    while let Some((depth, rest)) = left.split_first() {
        put_depth(text, program, file, *depth)?;
        file += 1;
        left = rest;
    }
    Ok(())
}

fn put_depth(text: &mut List<u8>, program: &Program, file: usize, depth: u8) -> Result<(), NoMemory>
    ensures { OnOk result (text.new ≡ text.old ++ depth_text program.now file depth) }
{
    if depth <= depth_in(program.files.get(file)) {
        return Ok(());
    }
    put_kept(text, program, file, depth)
}

fn depth_in(file: Option<&FileUse>) -> u8
    ensures { result ≡ depth_in (option_copied file.entry) }
{
    match file {
        None => 0,
        Some(file) => file.depth,
    }
}

fn put_kept(text: &mut List<u8>, program: &Program, file: usize, depth: u8) -> Result<(), NoMemory>
    ensures { OnOk result (text.new ≡ text.old ++ kept_text program.now file depth) }
{
    put(text, b"lacking: the OPEN of ")?;
    put_file(text, program, file)?;
    put(text, b" has to keep ")?;
    put_number(text, u64::from(depth))?;
    put(text, b" replies\n")
}

/// The line of a path's last statement, 0 where it has none.
fn last_line(lines: &[u32], path: &List<u16>) -> u32
    ensures { result ≡ last_line lines.now path.now }
{
    match path.get(path.len().saturating_sub(1)) {
        None => 0,
        Some(number) => line_among(lines, *number),
    }
}

fn put_unmendable(
    text: &mut List<u8>,
    program: &Program,
    reason: Reason,
    line: u64,
) -> Result<(), NoMemory>
    ensures { OnOk result (text.new ≡ text.old ++ unmendable_text program.now reason line) }
{
    put(
        text,
        b"lacking: no names mend it; a CHECKPOINT has to stand before line ",
    )?;
    put_number(text, line)?;
    put_unmended(text, program, reason)
}

fn put_unmended(text: &mut List<u8>, program: &Program, reason: Reason) -> Result<(), NoMemory>
    ensures { OnOk result (text.new ≡ text.old ++ unmended_text program.now reason) }
{
    match reason {
        Reason::Depth(file) => put_deepest(text, program, file),
        Reason::Data(_) => put_behind(text),
        Reason::SyncBlock(_) => put_behind(text),
        Reason::Input => put_behind(text),
    }
}

fn put_deepest(text: &mut List<u8>, program: &Program, file: u8) -> Result<(), NoMemory>
    ensures { OnOk result (text.new ≡ text.old ++ deepest_text program.now file) }
{
    put(text, b", since an OPEN keeps 4 replies at most, and ")?;
    put_file(text, program, usize::from(file))?;
    put(text, b" is asked a fifth time there\n")
}

fn put_behind(text: &mut List<u8>) -> Result<(), NoMemory>
    ensures { OnOk result (text.new ≡ text.old ++ behind_text) }
{
    put(text, b", behind the READUPDATE\n")
}
