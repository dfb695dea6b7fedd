ghost use Rattle.std.specs.Prelude.{◌≡◌, ◌++◌, OnOk};
ghost use Rattle.trace_lines.specs.Names.{numbered_text, pair_text, process_name, terminal_name};

use gd_words::{List, NoMemory};
use tal_tree::Site;
use text_pieces::{put, put_number};

/// The name of a process; nothing where it isn't there.
pub(crate) fn process_name(site: &Site, process: u8) -> &[u8]
    ensures { result.now ≡ process_name site.now process }
{
    match site.processes.get(usize::from(process)) {
        None => b"",
        Some(spec) => spec.name.text(),
    }
}

/// The name of a terminal; nothing where it isn't there.
pub(crate) fn terminal_name(site: &Site, terminal: u8) -> &[u8]
    ensures { result.now ≡ terminal_name site.now terminal }
{
    match site.terminals.get(usize::from(terminal)) {
        None => b"",
        Some(spec) => spec.name.text(),
    }
}

/// Puts a number with what stands around it behind the text.
pub(crate) fn put_numbered(
    text: &mut List<u8>,
    lead: &[u8],
    number: u64,
    tail: &[u8],
) -> Result<(), NoMemory>
    ensures { OnOk result (text.new ≡ text.old ++ numbered_text lead.now number tail.now) }
{
    put(text, lead)?;
    put_number(text, number)?;
    put(text, tail)
}

/// Puts two numbers behind the text, each with what stands before it.
pub(crate) fn put_pair(
    text: &mut List<u8>,
    lead: &[u8],
    first: u8,
    middle: &[u8],
    second: u8,
) -> Result<(), NoMemory>
    ensures { OnOk result (text.new ≡ text.old ++ pair_text lead.now first middle.now second) }
{
    put_numbered(text, lead, u64::from(first), b"")?;
    put_numbered(text, middle, u64::from(second), b"")
}
