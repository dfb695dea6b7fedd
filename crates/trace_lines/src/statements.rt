ghost use Rattle.std.specs.Prelude.{◌≡◌, ◌++◌, OnOk};
ghost use Rattle.trace_lines.specs.Statements.{is_blank, line_at, line_of, program_lines, source_of, statement_text};
ghost use Rattle.trace_lines.specs.Statements.{trimmed};

use crate::names::put_numbered;
use crate::places::Places;
use gd_words::{List, NoMemory};
use text_pieces::{put, put_shown};

/// Puts a statement of a process behind the text, by its line of the deck; or a procedure's end, where the number is 0.
pub(crate) fn put_statement(
    text: &mut List<u8>,
    places: &Places,
    process: u8,
    statement: u16,
) -> Result<(), NoMemory>
    ensures { OnOk result (text.new ≡ text.old ++ statement_text places.now process statement) }
{
    if statement == 0 {
        return put(text, b"the end of a procedure");
    }
    let line = line_of(places, process, statement);
    put_numbered(text, b"line ", line, b": ")?;
    put_shown(text, trimmed(source_of(places, line)))
}

/// The line of the deck on which a statement of a process stands, from 1; 0 where there is none.
fn line_of(places: &Places, process: u8, statement: u16) -> u64
    ensures { result ≡ line_of places.now process statement }
{
    if statement == 0 {
        return 0;
    }
    line_at(program_lines(places, process), usize::from(statement - 1))
}

fn program_lines(places: &Places, process: u8) -> &[u64]
    ensures { result.now ≡ program_lines places.now process }
{
    match places.programs.get(usize::from(process)) {
        None => &[],
        Some(lines) => lines.as_slice(),
    }
}

fn line_at(lines: &[u64], place: usize) -> u64
    ensures { result ≡ line_at lines.now place }
{
    match lines.get(place) {
        None => 0,
        Some(line) => *line,
    }
}

/// A line of the deck; nothing where there is none of this number.
fn source_of(places: &Places, line: u64) -> &[u8]
    ensures { result.now ≡ source_of places.now line }
{
    if line == 0 {
        return b"";
    }
    match places.lines.get((line - 1) as usize) {
        None => b"",
        Some(source) => source.as_slice(),
    }
}

/// A line from its first sign on that is no blank.
fn trimmed(line: &[u8]) -> &[u8]
    ensures { result.now ≡ trimmed line.now }
{
    let mut left = line;
    while let Some((sign, rest)) = left.split_first() {
        if !is_blank(*sign) {
            return left;
        }
        left = rest;
    }
    left
}

fn is_blank(sign: u8) -> bool
    ensures { result ≡ is_blank sign }
{
    sign == b' ' || sign == b'\t'
}
