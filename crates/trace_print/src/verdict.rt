ghost use Rattle.std.specs.Prelude.{◌≡◌, ◌+◌, ◌≤◌, ◌++◌, length};
ghost use Rattle.gd_io.specs.Puts.{Puts};
ghost use Rattle.statement_lines.specs.Lines.{line_among};
ghost use Rattle.trace_print.specs.VerdictText.{accepted_by, accepted_line, accepted_lines, accepted_text, cause_text};
ghost use Rattle.trace_print.specs.VerdictText.{global_in, global_name, path_of, reason_text, refusal_text};
ghost use Rattle.trace_print.specs.VerdictText.{refused_line, step_line, step_lines};

use crate::acts::variable_name;
use crate::closing::{End, write_end};
use crate::line::Line;
use crate::shown::process_name;
use gd_io::{Sink, WriteFault, put_all};
use site_advice::{Reason, RefusalFault};
use tal_tree::{Kind, ProcessSpec, Site};

/// Writes that every program of a site is accepted: a line for each pair, and the end. It takes no memory.
pub fn write_checked<K: Sink>(sink: &mut K, site: &Site) -> Result<(), WriteFault>
    ensures { Puts K.held K.faults K.sure sink.old sink.new (accepted_text site.now) result }
{
    write_all_accepted(sink, site.processes.as_slice())?;
    write_end(sink, End::Checked)
}

fn write_all_accepted<K: Sink>(sink: &mut K, specs: &[ProcessSpec]) -> Result<(), WriteFault>
    ensures { Puts K.held K.faults K.sure sink.old sink.new (accepted_lines specs.now) result }
{
    for spec in specs {
        write_accepted(sink, spec)?;
    }
    Ok(())
}

/// Writes the line of a pair whose program is accepted; a disc has none. It takes no memory.
pub fn write_accepted<K: Sink>(sink: &mut K, spec: &ProcessSpec) -> Result<(), WriteFault>
    ensures { Puts K.held K.faults K.sure sink.old sink.new (accepted_line spec.now) result }
{
    let line = accepted_line(spec);
    put_all(sink, line.bytes())
}

fn accepted_line(spec: &ProcessSpec) -> Line
    ensures { result ≡ accepted_line spec.now }
{
    let mut line = Line::new();
    if let Kind::Pair(_) = &spec.what {
        line.push(b"ACCEPTED ");
        line.push(spec.name.text());
        line.push(b"\n");
    }
    line
}

/// Writes why the program of a process is refused: the cause, the number and the line of each statement of the path
/// that shows it, and the end. `lines` are those of the program's statements in the order of their numbers, from 1. It
/// takes no memory.
pub fn write_refusal<K: Sink>(
    sink: &mut K,
    site: &Site,
    process: u8,
    refusal: &RefusalFault,
    lines: &[u32],
) -> Result<(), WriteFault>
    ensures { Puts K.held K.faults K.sure sink.old sink.new (refusal_text site.now process refusal.now lines.now)
        result }
{
    write_cause(sink, site, process, refusal, lines)?;
    write_end(sink, End::Refused)
}

fn write_cause<K: Sink>(
    sink: &mut K,
    site: &Site,
    process: u8,
    refusal: &RefusalFault,
    lines: &[u32],
) -> Result<(), WriteFault>
    ensures { Puts K.held K.faults K.sure sink.old sink.new
        (refused_line site.now process refusal.now ++ step_lines lines.now (path_of refusal.now)) result }
{
    write_refused(sink, site, process, refusal)?;
    write_path(sink, lines, path_of(refusal))
}

fn write_refused<K: Sink>(
    sink: &mut K,
    site: &Site,
    process: u8,
    refusal: &RefusalFault,
) -> Result<(), WriteFault>
    ensures { Puts K.held K.faults K.sure sink.old sink.new (refused_line site.now process refusal.now) result }
{
    let line = refused_line(site, process, refusal);
    put_all(sink, line.bytes())
}

fn write_path<K: Sink>(sink: &mut K, lines: &[u32], path: &[u16]) -> Result<(), WriteFault>
    ensures { Puts K.held K.faults K.sure sink.old sink.new (step_lines lines.now path.now) result }
{
    for number in path {
        write_step(sink, lines, *number)?;
    }
    Ok(())
}

fn write_step<K: Sink>(sink: &mut K, lines: &[u32], number: u16) -> Result<(), WriteFault>
    ensures { Puts K.held K.faults K.sure sink.old sink.new (step_line lines.now number) result }
{
    let line = step_line(lines, number);
    put_all(sink, line.bytes())
}

fn step_line(lines: &[u32], number: u16) -> Line
    ensures { result ≡ step_line lines.now number }
{
    let mut line = Line::new();
    line.push(b"P ");
    line.number(i64::from(number));
    line.push(b" ");
    line.number(i64::from(line_at(lines, number)));
    line.push(b"\n");
    line
}

fn line_at(lines: &[u32], number: u16) -> u32
    ensures { result ≡ line_among lines.now number }
{
    if number == 0 {
        return 0;
    }
    match lines.get(usize::from(number) - 1) {
        Some(line) => *line,
        None => 0,
    }
}

fn path_of(refusal: &RefusalFault) -> &[u16]
    ensures { result.now ≡ path_of refusal.now }
{
    match refusal {
        RefusalFault::Broken { reason: _, path } => path.as_slice(),
        RefusalFault::TooDeep => &[],
        RefusalFault::TooLarge(_) => &[],
        RefusalFault::NoMemory(_) => &[],
    }
}

fn refused_line(site: &Site, process: u8, refusal: &RefusalFault) -> Line
    ensures { result ≡ refused_line site.now process refusal.now }
{
    let mut line = Line::new();
    line.push(b"REFUSED ");
    line.push(process_name(site, process));
    line.push(b" ");
    push_cause(&mut line, site, process, refusal);
    line.push(b"\n");
    line
}

fn push_cause(line: &mut Line, site: &Site, process: u8, refusal: &RefusalFault)
    requires { length line.old + 41 ≤ 512 }
    ensures text { line.new ≡ line.old ++ cause_text site.now process refusal.now }
    ensures len { length line.new ≤ length line.old + 41 }
{
    match refusal {
        RefusalFault::TooDeep => line.push(b"TooDeep"),
        RefusalFault::TooLarge(size) => {
            line.push(b"TooLarge ");
            line.number(i64::from(*size));
        }
        RefusalFault::Broken { reason, path: _ } => push_reason(line, site, process, *reason),
        RefusalFault::NoMemory(_) => {}
    }
}

fn push_reason(line: &mut Line, site: &Site, process: u8, reason: Reason)
    requires { length line.old + 41 ≤ 512 }
    ensures text { line.new ≡ line.old ++ reason_text site.now process reason }
    ensures len { length line.new ≤ length line.old + 41 }
{
    match reason {
        Reason::Data(item) => {
            line.push(b"Data ");
            line.push(global_name(site, process, item));
        }
        Reason::SyncBlock(file) => {
            line.push(b"SyncBlock ");
            line.push(variable_name(site, process, file));
        }
        Reason::Input => line.push(b"Input"),
        Reason::Depth(file) => {
            line.push(b"Depth ");
            line.push(variable_name(site, process, file));
        }
    }
}

/// The name of a global, empty where it isn't there.
pub(crate) fn global_name(site: &Site, process: u8, item: u16) -> &[u8]
    ensures name { result.now ≡ global_name site.now process item }
    ensures short { length result.now ≤ 31 }
{
    match site.processes.get(usize::from(process)) {
        Some(spec) => global_in(&spec.what, item),
        None => &[],
    }
}

fn global_in(what: &Kind, item: u16) -> &[u8]
    ensures name { result.now ≡ global_in what.now item }
    ensures short { length result.now ≤ 31 }
{
    let Kind::Pair(program) = what else {
        return &[];
    };
    match program.items.get(usize::from(item)) {
        Some(found) => found.name.text(),
        None => &[],
    }
}
