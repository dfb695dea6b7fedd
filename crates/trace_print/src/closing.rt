ghost use Rattle.std.specs.Prelude.{◌≡◌};
ghost use Rattle.gd_io.specs.Puts.{Puts};
ghost use Rattle.trace_print.specs.EndLine.{closing_line, end_line, usage_line};

use crate::line::Line;
use crate::shown::process_name;
use gd_io::{Sink, WriteFault, put_all};
use tal_tree::Site;

/// How a report ends: nothing more could happen, the run was cut short, a second processor would have stopped, all
/// programs were accepted, one was refused, all stops were tried, or all programs have advice.
#[derive(Clone, Copy, PartialEq, Eq)]
pub enum End {
    Idle,
    Cut,
    Second(u8),
    Checked,
    Refused,
    Swept,
    Advised,
}

/// How the report of a run ends: as others may, or since a disc would have been lost, the process at this place in the
/// deck.
#[derive(Clone, Copy, PartialEq, Eq)]
pub enum Closing {
    Ended(End),
    Lost(u8),
}

/// Writes the line with which the report of a run ends. It takes no memory.
pub fn write_closing<K: Sink>(sink: &mut K, site: &Site, closing: Closing) -> Result<(), WriteFault>
    ensures { Puts K.held K.faults K.sure sink.old sink.new (closing_line site.now closing) result }
{
    match closing {
        Closing::Ended(end) => write_end(sink, end),
        Closing::Lost(process) => write_lost(sink, site, process),
    }
}

fn write_lost<K: Sink>(sink: &mut K, site: &Site, process: u8) -> Result<(), WriteFault>
    ensures { Puts K.held K.faults K.sure sink.old sink.new (closing_line site.now (Closing.Lost process)) result }
{
    let line = lost_text(site, process);
    put_all(sink, line.bytes())
}

fn lost_text(site: &Site, process: u8) -> Line
    ensures { result ≡ closing_line site.now (Closing.Lost process) }
{
    let mut line = Line::new();
    line.push(b"END lost ");
    line.push(process_name(site, process));
    line.push(b"\n");
    line
}

/// Writes the line of a run's end. It takes no memory.
pub fn write_end<K: Sink>(sink: &mut K, end: End) -> Result<(), WriteFault>
    ensures { Puts K.held K.faults K.sure sink.old sink.new (end_line end) result }
{
    let line = end_text(end);
    put_all(sink, line.bytes())
}

/// Writes the line that says how the program is called. It takes no memory.
pub fn write_usage<K: Sink>(sink: &mut K) -> Result<(), WriteFault>
    ensures { Puts K.held K.faults K.sure sink.old sink.new usage_line result }
{
    put_all(sink, b"USAGE guardian MODE [N] [--acts] [--fail P:K]\n")
}

fn end_text(end: End) -> Line
    ensures { result ≡ end_line end }
{
    let mut line = Line::new();
    match end {
        End::Idle => line.push(b"END idle\n"),
        End::Cut => line.push(b"END cut\n"),
        End::Second(processor) => {
            line.push(b"END second ");
            line.number(i64::from(processor));
            line.push(b"\n");
        }
        End::Checked => line.push(b"END checked\n"),
        End::Refused => line.push(b"END refused\n"),
        End::Swept => line.push(b"END swept\n"),
        End::Advised => line.push(b"END advised\n"),
    }
    line
}
