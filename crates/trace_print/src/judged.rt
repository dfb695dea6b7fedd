ghost use Rattle.std.specs.Prelude.{◌≡◌};
ghost use Rattle.gd_io.specs.Puts.{Puts};
ghost use Rattle.trace_print.specs.VerdictLine.{rejected_line, verified_line};

use crate::line::Line;
use gd_io::{Sink, WriteFault, put_all};

/// Writes the line of a report that is one of its deck, with so many acts. It takes no memory.
pub fn write_verified<K: Sink>(sink: &mut K, acts: u32) -> Result<(), WriteFault>
    ensures { Puts K.held K.faults K.sure sink.old sink.new (verified_line acts) result }
{
    let line = verified_text(acts);
    put_all(sink, line.bytes())
}

/// Writes the line of a report that is rejected: at which of its lines, from 1, and for the cause of which number. It
/// takes no memory.
pub fn write_rejected<K: Sink>(sink: &mut K, line: u32, cause: u8) -> Result<(), WriteFault>
    ensures { Puts K.held K.faults K.sure sink.old sink.new (rejected_line line cause) result }
{
    let text = rejected_text(line, cause);
    put_all(sink, text.bytes())
}

fn verified_text(acts: u32) -> Line
    ensures { result ≡ verified_line acts }
{
    let mut line = Line::new();
    line.push(b"VERIFIED ");
    line.number(i64::from(acts));
    line.push(b"\n");
    line
}

fn rejected_text(at: u32, cause: u8) -> Line
    ensures { result ≡ rejected_line at cause }
{
    let mut line = Line::new();
    line.push(b"REJECTED ");
    line.number(i64::from(at));
    line.push(b" ");
    line.number(i64::from(cause));
    line.push(b"\n");
    line
}
