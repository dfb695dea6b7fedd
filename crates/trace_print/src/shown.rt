ghost use Rattle.std.specs.Prelude.{◌≡◌, ◌≤◌, [], ◌∷◌, ◌++◌, length, codes};
ghost use Rattle.std.specs.Fmt.{decimal};
ghost use Rattle.gd_words.specs.declared.limits.TheConstants.{MOST_MESSAGE_WORDS};
ghost use Rattle.gd_io.specs.Puts.{Puts};
ghost use Rattle.trace_print.specs.NumbersText.{words_text};
ghost use Rattle.trace_print.specs.ShownLine.{process_name, shown_line, shown_lines, terminal_name};

use crate::line::Line;
use gd_io::{Sink, WriteFault, put_all};
use tal_tree::{Shown, Site};

/// Writes the line of what a process or a terminal of the site shows; the name of one that isn't there is empty. It
/// takes no memory.
pub fn write_shown<K: Sink>(sink: &mut K, site: &Site, shown: &Shown) -> Result<(), WriteFault>
    ensures { Puts K.held K.faults K.sure sink.old sink.new (shown_line site.now shown.now) result }
{
    let line = shown_text(site, shown);
    put_all(sink, line.bytes())
}

/// Writes the lines of all that a run shows, in order. It takes no memory.
pub fn write_all_shown<K: Sink>(
    sink: &mut K,
    site: &Site,
    shown: &[Shown],
) -> Result<(), WriteFault>
    ensures { Puts K.held K.faults K.sure sink.old sink.new (shown_lines site.now shown.now) result }
{
    for one in shown {
        write_shown(sink, site, one)?;
    }
    Ok(())
}

fn shown_text(site: &Site, shown: &Shown) -> Line
    ensures { result ≡ shown_line site.now shown.now }
{
    match shown {
        Shown::Write {
            process,
            sector,
            words,
        } => told(
            b"W ",
            process_name(site, *process),
            u32::from(*sector),
            words,
        ),
        Shown::Reply {
            terminal,
            number,
            words,
        } => told(
            b"R ",
            terminal_name(site, *terminal),
            *number,
            words.as_slice(),
        ),
    }
}

/// The name of a process, empty where it isn't there.
pub fn process_name(site: &Site, process: u8) -> &[u8]
    ensures value { result.now ≡ process_name site.now process }
    ensures short { length result.now ≤ 6 }
{
    match site.processes.get(usize::from(process)) {
        Some(spec) => spec.name.text(),
        None => &[],
    }
}

/// The name of a terminal, empty where it isn't there.
pub fn terminal_name(site: &Site, terminal: u8) -> &[u8]
    ensures value { result.now ≡ terminal_name site.now terminal }
    ensures short { length result.now ≤ 6 }
{
    match site.terminals.get(usize::from(terminal)) {
        Some(spec) => spec.name.text(),
        None => &[],
    }
}

/// A letter with a space, a name, a number and words.
pub(crate) fn told(letter: &[u8], name: &[u8], number: u32, words: &[i16]) -> Line
    requires letter { length letter.now ≤ 2 }
    requires short { length name.now ≤ 6 }
    requires few { length words.now ≤ MOST_MESSAGE_WORDS }
    ensures { result ≡ letter.now ++ name.now ++ codes " " ++ decimal number ++ codes ":" ++ words_text words.now
        ++ 10 ∷ [] }
{
    let mut line = Line::new();
    line.push(letter);
    line.push(name);
    line.push(b" ");
    line.number(i64::from(number));
    line.push(b":");
    line.words(words);
    line.push(b"\n");
    line
}
