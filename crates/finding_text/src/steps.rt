ghost use Rattle.std.specs.Prelude.{◌≡◌, ◌≤◌, ◌+◌, ◌++◌, length, OnOk};
ghost use Rattle.statement_lines.specs.Lines.{line_among};
ghost use Rattle.finding_text.specs.Steps.{due_note, gap_text, last_note, note_text, padding, path_text};
ghost use Rattle.finding_text.specs.Steps.{one_too_many_note, place_text, step_text, steps_text};
ghost use Rattle.finding_text.specs.Steps.{uncovered_note, unnamed_note};
ghost use Rattle.finding_text.specs.Names.{file_name, item_name};
ghost use Rattle.gd_words.specs.declared.limits.TheConstants.{MOST_DECK_BYTES};

use crate::deck_place::put_source;
use crate::names::{put_file, put_item};
use gd_words::{List, NoMemory};
use pair_findings::{PairFinding, has_note};
use path_semantics::Reason;
use tal_tree::Program;
use text_pieces::{put, put_number};

/// A path of more statements is cut in the middle.
const MOST_STEPS: usize = 60;

/// So many statements are shown of each end of a path that is cut.
const SHOWN_STEPS: usize = 30;

/// The path that breaks for a reason, in the program that begins behind a line of the deck.
#[derive(Clone, Copy)]
pub(crate) struct Way {
    pub(crate) start: u64,
    pub(crate) reason: Reason,
    pub(crate) count: usize,
}

/// Puts the statements of a path behind the text, each by its line of the deck, with a note at each that made due what
/// breaks at the last.
pub(crate) fn put_path(
    text: &mut List<u8>,
    bytes: &[u8],
    program: &Program,
    finding: &PairFinding,
    way: Way,
    path: &[u16],
) -> Result<(), NoMemory>
    requires start { way.start ≤ MOST_DECK_BYTES }
    requires count { way.count ≡ length path.now }
    ensures { OnOk result (text.new ≡ text.old ++ path_text bytes.now program.now finding.now way path.now) }
{
    let count = path.len();
    if count <= MOST_STEPS {
        return put_steps(text, bytes, program, finding, way, 0, path);
    }
    let (front, _) = path.split_at(SHOWN_STEPS);
    let (_, back) = path.split_at(count - SHOWN_STEPS);
    put_steps(text, bytes, program, finding, way, 0, front)?;
    put_gap(text, count - MOST_STEPS)?;
    put_steps(
        text,
        bytes,
        program,
        finding,
        way,
        count - SHOWN_STEPS,
        back,
    )
}

fn put_gap(text: &mut List<u8>, count: usize) -> Result<(), NoMemory>
    ensures { OnOk result (text.new ≡ text.old ++ gap_text count) }
{
    put(text, b"     ..  ")?;
    put_number(text, count as u64)?;
    put(text, b" statements are left out\n")
}

/// Puts statements behind the text, of which the first stands at a place of the path.
fn put_steps(
    text: &mut List<u8>,
    bytes: &[u8],
    program: &Program,
    finding: &PairFinding,
    way: Way,
    first: usize,
    numbers: &[u16],
) -> Result<(), NoMemory>
    requires start { way.start ≤ MOST_DECK_BYTES }
    requires within { first + length numbers.now ≤ way.count }
    ensures { OnOk result (text.new ≡ text.old
        ++ steps_text bytes.now program.now finding.now way first numbers.now) }
{
    let mut left = numbers;
    let mut place = first;
    while let Some((number, rest)) = left.split_first() {
        put_step(text, bytes, program, finding, way, place, *number)?;
        place += 1;
        left = rest;
    }
    Ok(())
}

fn put_step(
    text: &mut List<u8>,
    bytes: &[u8],
    program: &Program,
    finding: &PairFinding,
    way: Way,
    place: usize,
    number: u16,
) -> Result<(), NoMemory>
    requires start { way.start ≤ MOST_DECK_BYTES }
    requires within { place + 1 ≤ way.count }
    ensures { OnOk result (text.new ≡ text.old
        ++ step_text bytes.now program.now finding.now way place number) }
{
    let line = way.start + u64::from(line_among(finding.lines.as_slice(), number));
    put_place(text, line)?;
    put_source(text, bytes, line)?;
    put_note(text, program, finding, way, place, number)?;
    put(text, b"\n")
}

/// The line of the statement that has a number, from 1; 0 where there is none.
pub(crate) fn line_among(lines: &[u32], number: u16) -> u32
    ensures { result ≡ line_among lines.now number }
{
    if number == 0 {
        return 0;
    }
    match lines.get(usize::from(number - 1)) {
        None => 0,
        Some(line) => *line,
    }
}

/// Puts the number of a deck's line behind the text, in seven columns.
pub(crate) fn put_place(text: &mut List<u8>, line: u64) -> Result<(), NoMemory>
    ensures { OnOk result (text.new ≡ text.old ++ place_text line) }
{
    put(text, padding(line))?;
    put_number(text, line)?;
    put(text, b"  ")
}

/// What fills a number's columns.
fn padding(number: u64) -> &'static [u8]
    ensures { result.now ≡ padding number }
{
    if number < 10 {
        b"      "
    } else if number < 100 {
        b"     "
    } else if number < 1_000 {
        b"    "
    } else if number < 10_000 {
        b"   "
    } else if number < 100_000 {
        b"  "
    } else {
        b" "
    }
}

fn put_note(
    text: &mut List<u8>,
    program: &Program,
    finding: &PairFinding,
    way: Way,
    place: usize,
    number: u16,
) -> Result<(), NoMemory>
    requires { place + 1 ≤ way.count }
    ensures { OnOk result (text.new ≡ text.old ++ note_text program.now finding.now way place number) }
{
    if place + 1 == way.count {
        put_last_note(text, program, way.reason)
    } else if has_note(finding.deeds.as_slice(), finding.since, place, number) {
        put_due_note(text, program, way.reason)
    } else {
        Ok(())
    }
}

fn put_due_note(text: &mut List<u8>, program: &Program, reason: Reason) -> Result<(), NoMemory>
    ensures { OnOk result (text.new ≡ text.old ++ due_note program.now reason) }
{
    match reason {
        Reason::Data(item) => {
            put(text, b"   <- sets ")?;
            put_item(text, program, item)
        }
        Reason::SyncBlock(file) => {
            put(text, b"   <- asks ")?;
            put_file(text, program, usize::from(file))
        }
        Reason::Input => put(text, b"   <- reads a request"),
        Reason::Depth(file) => {
            put(text, b"   <- asks ")?;
            put_file(text, program, usize::from(file))
        }
    }
}

fn put_last_note(text: &mut List<u8>, program: &Program, reason: Reason) -> Result<(), NoMemory>
    ensures { OnOk result (text.new ≡ text.old ++ last_note program.now reason) }
{
    match reason {
        Reason::Data(item) => put_unnamed_item(text, program, item),
        Reason::SyncBlock(file) => put_unnamed_file(text, program, file),
        Reason::Input => put_uncovered(text),
        Reason::Depth(file) => put_one_too_many(text, program, file),
    }
}

fn put_unnamed_item(text: &mut List<u8>, program: &Program, item: u16) -> Result<(), NoMemory>
    ensures { OnOk result (text.new ≡ text.old ++ unnamed_note (item_name program.now item)) }
{
    put(text, b"   <- doesn't name ")?;
    put_item(text, program, item)
}

fn put_unnamed_file(text: &mut List<u8>, program: &Program, file: u8) -> Result<(), NoMemory>
    ensures { OnOk result (text.new ≡ text.old ++ unnamed_note (file_name program.now file)) }
{
    put(text, b"   <- doesn't name ")?;
    put_file(text, program, usize::from(file))
}

fn put_uncovered(text: &mut List<u8>) -> Result<(), NoMemory>
    ensures { OnOk result (text.new ≡ text.old ++ uncovered_note) }
{
    put(text, b"   <- comes with no CHECKPOINT before it")
}

fn put_one_too_many(text: &mut List<u8>, program: &Program, file: u8) -> Result<(), NoMemory>
    ensures { OnOk result (text.new ≡ text.old ++ one_too_many_note (file_name program.now file)) }
{
    put(text, b"   <- is one too many for ")?;
    put_file(text, program, usize::from(file))
}
