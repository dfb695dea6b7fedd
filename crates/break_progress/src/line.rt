ghost use Rattle.std.specs.Prelude.{◌≡◌, ◌++◌, IfOk, OnOk};
ghost use Rattle.break_progress.specs.Progress.{tried_line};

use gd_words::{List, NoMemory};
use std::alloc::Global;
use text_pieces::{put, put_number};

/// The line after so many of all runs.
pub(crate) fn tried_line(alloc: Global, total: u64, runs: u64) -> Result<List<u8>, NoMemory>
    ensures { IfOk result (λ line. line ≡ tried_line total runs) }
{
    let mut line = List::new(alloc);
    put_tried(&mut line, total, runs)?;
    Ok(line)
}

fn put_tried(text: &mut List<u8>, total: u64, runs: u64) -> Result<(), NoMemory>
    ensures { OnOk result (text.new ≡ text.old ++ tried_line total runs) }
{
    put_number(text, runs)?;
    put(text, b" of ")?;
    put_number(text, total)?;
    put(text, b" runs are tried, and none of them breaks\n")
}
