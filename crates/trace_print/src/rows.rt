ghost use Rattle.std.specs.Prelude.{◌≡◌};
ghost use Rattle.gd_io.specs.Puts.{Puts};
ghost use Rattle.trace_print.specs.RowLine.{row_line, row_lines, sweep_text};

use crate::closing::{End, write_end};
use crate::line::Line;
use gd_io::{Sink, WriteFault, put_all};
use run_table::ProcessorRow;

/// Writes the line of a processor's row. It takes no memory.
pub fn write_row<K: Sink>(sink: &mut K, one: &ProcessorRow) -> Result<(), WriteFault>
    ensures { Puts K.held K.faults K.sure sink.old sink.new (row_line one.now) result }
{
    let line = row_text(one);
    put_all(sink, line.bytes())
}

fn write_all_rows<K: Sink>(sink: &mut K, rows: &[ProcessorRow]) -> Result<(), WriteFault>
    ensures { Puts K.held K.faults K.sure sink.old sink.new (row_lines rows.now) result }
{
    for one in rows {
        write_row(sink, one)?;
    }
    Ok(())
}

/// Writes the lines of a sweep: that of each row, in order, and the end. It takes no memory.
pub fn write_sweep<K: Sink>(sink: &mut K, rows: &[ProcessorRow]) -> Result<(), WriteFault>
    ensures { Puts K.held K.faults K.sure sink.old sink.new (sweep_text rows.now) result }
{
    write_all_rows(sink, rows)?;
    write_end(sink, End::Swept)
}

fn row_text(one: &ProcessorRow) -> Line
    ensures { result ≡ row_line one.now }
{
    let mut line = Line::new();
    line.push(b"F");
    line.numbers(&[
        u32::from(one.processor),
        one.row.runs,
        one.row.idle,
        one.row.cut,
        one.row.second,
    ]);
    line.push(b"\n");
    line
}
