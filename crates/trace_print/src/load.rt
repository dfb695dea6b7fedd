ghost use Rattle.std.specs.Prelude.{◌≡◌, ◌+◌, ◌≤◌, ◌++◌, length, codes};
ghost use Rattle.gd_io.specs.Puts.{Puts};
ghost use Rattle.trace_print.specs.LoadLines.{count_line, load_lines};

use crate::line::Line;
use gd_io::{Sink, WriteFault, put_all};

/// What is told of a load: how many requests each terminal has, and how many writes and replies are shown.
#[derive(Clone, Copy, PartialEq, Eq)]
pub struct LoadCounts {
    pub requests: u32,
    pub writes: u32,
    pub replies: u32,
}

/// Writes the lines of a load's counts. It takes no memory.
pub fn write_load<K: Sink>(sink: &mut K, counts: LoadCounts) -> Result<(), WriteFault>
    ensures { Puts K.held K.faults K.sure sink.old sink.new (load_lines counts) result }
{
    write_requests_and_writes(sink, counts)?;
    write_count(sink, b"R ", counts.replies)
}

fn write_requests_and_writes<K: Sink>(sink: &mut K, counts: LoadCounts) -> Result<(), WriteFault>
    ensures { Puts K.held K.faults K.sure sink.old sink.new
        (count_line (codes "LOAD ") counts.requests ++ count_line (codes "W ") counts.writes) result }
{
    write_count(sink, b"LOAD ", counts.requests)?;
    write_count(sink, b"W ", counts.writes)
}

fn write_count<K: Sink>(sink: &mut K, word: &[u8], count: u32) -> Result<(), WriteFault>
    requires { length word.now ≤ 5 }
    ensures { Puts K.held K.faults K.sure sink.old sink.new (count_line word.now count) result }
{
    let line = count_text(word, count);
    put_all(sink, line.bytes())
}

fn count_text(word: &[u8], count: u32) -> Line
    requires { length word.now ≤ 5 }
    ensures { result ≡ count_line word.now count }
{
    let mut line = Line::new();
    line.push(word);
    line.number(i64::from(count));
    line.push(b"\n");
    line
}
