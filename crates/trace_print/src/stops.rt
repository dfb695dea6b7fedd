ghost use Rattle.std.specs.Prelude.{◌≡◌};
ghost use Rattle.gd_io.specs.Puts.{Puts};
ghost use Rattle.trace_print.specs.StopLine.{stop_line, stop_lines};

use crate::line::Line;
use gd_io::{Sink, WriteFault, put_all};

/// Writes the line of a processor that has stopped. It takes no memory.
pub fn write_stop<K: Sink>(sink: &mut K, processor: u8) -> Result<(), WriteFault>
    ensures { Puts K.held K.faults K.sure sink.old sink.new (stop_line processor) result }
{
    let line = stop_text(processor);
    put_all(sink, line.bytes())
}

/// Writes the lines of processors that have stopped, in order. It takes no memory.
pub fn write_all_stops<K: Sink>(sink: &mut K, stopped: &[u8]) -> Result<(), WriteFault>
    ensures { Puts K.held K.faults K.sure sink.old sink.new (stop_lines stopped.now) result }
{
    for processor in stopped {
        write_stop(sink, *processor)?;
    }
    Ok(())
}

fn stop_text(processor: u8) -> Line
    ensures { result ≡ stop_line processor }
{
    let mut line = Line::new();
    line.push(b"S ");
    line.number(i64::from(processor));
    line.push(b"\n");
    line
}
