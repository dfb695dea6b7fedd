//! The line of what is shown, in memory.
ghost use Rattle.std.specs.Prelude.{◌≡◌, ◌++◌, IfOk, OnOk};
ghost use Rattle.trace_print.specs.ShownLine.{shown_line};
ghost use Rattle.break_text.specs.BreakText.{line_text};

use gd_io::{TextSink, WriteFault};
use gd_words::{List, NoMemory};
use std::alloc::Global;
use tal_tree::{Shown, Site};
use text_pieces::put;
use trace_print::write_shown;

/// Puts the line of what is shown behind the text, if anything is.
pub(crate) fn put_line(
    alloc: Global,
    text: &mut List<u8>,
    site: &Site,
    shown: &Option<Shown>,
) -> Result<(), NoMemory>
    ensures { OnOk result (text.new ≡ text.old ++ line_text site.now shown.now) }
{
    match shown {
        None => put(text, b"nothing more\n"),
        Some(shown) => {
            let line = shown_line(alloc, site, shown)?;
            put(text, line.as_slice())
        }
    }
}

fn shown_line(alloc: Global, site: &Site, shown: &Shown) -> Result<List<u8>, NoMemory>
    ensures { IfOk result (λ line. line ≡ shown_line site.now shown.now) }
{
    let mut sink = TextSink::new(alloc);
    match write_shown(&mut sink, site, shown) {
        Ok(()) => Ok(sink.into_text()),
        Err(WriteFault) => Err(sink.memory()),
    }
}
