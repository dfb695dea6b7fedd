ghost use Rattle.std.specs.Prelude.{◌≡◌, ◌+◌, ◌≤◌, ◌++◌, length};
ghost use Rattle.gd_io.specs.Puts.{Puts};
ghost use Rattle.plain_semantics.specs.SiteLimits.{KeepsSiteLimits};
ghost use Rattle.trace_print.specs.ActLine.{act_line, act_lines, opener_name, variable_in, variable_name, who_name};

use crate::line::Line;
use crate::shown::{process_name, terminal_name};
use gd_io::{Sink, WriteFault, put_all};
use plain_semantics::opener_at;
use tal_tree::{Act, Kind, Site, Who};

/// Writes the line of an act that a run kept; the name of what isn't there is empty. It takes no memory.
pub fn write_act<K: Sink>(sink: &mut K, site: &Site, act: Act) -> Result<(), WriteFault>
    requires { KeepsSiteLimits site.now }
    ensures { Puts K.held K.faults K.sure sink.old sink.new (act_line site.now act) result }
{
    let line = act_text(site, act);
    put_all(sink, line.bytes())
}

/// Writes the lines of acts, in order. It takes no memory.
pub fn write_all_acts<K: Sink>(sink: &mut K, site: &Site, acts: &[Act]) -> Result<(), WriteFault>
    requires { KeepsSiteLimits site.now }
    ensures { Puts K.held K.faults K.sure sink.old sink.new (act_lines site.now acts.now) result }
{
    for act in acts {
        write_act(sink, site, *act)?;
    }
    Ok(())
}

fn act_text(site: &Site, act: Act) -> Line
    requires { KeepsSiteLimits site.now }
    ensures { result ≡ act_line site.now act }
{
    let mut line = Line::new();
    match act {
        Act::Step(process) => {
            line.push(b"A step ");
            line.push(process_name(site, process));
        }
        Act::Take { process, opener } => {
            line.push(b"A take ");
            line.push(process_name(site, process));
            line.push(b" ");
            push_opener(&mut line, site, usize::from(process), usize::from(opener));
        }
        Act::Enter(terminal) => {
            line.push(b"A enter ");
            line.push(terminal_name(site, terminal));
        }
        Act::Print(terminal) => {
            line.push(b"A print ");
            line.push(terminal_name(site, terminal));
        }
    }
    line.push(b"\n");
    line
}

fn push_opener(line: &mut Line, site: &Site, process: usize, place: usize)
    requires limits { KeepsSiteLimits site.now }
    requires room { length line.old + 38 ≤ 512 }
    ensures text { line.new ≡ line.old ++ opener_name site.now process place }
    ensures len { length line.new ≤ length line.old + 38 }
{
    if let Some(who) = opener_at(site, process, place) {
        push_who(line, site, who);
    }
}

fn push_who(line: &mut Line, site: &Site, who: Who)
    requires room { length line.old + 38 ≤ 512 }
    ensures text { line.new ≡ line.old ++ who_name site.now who }
    ensures len { length line.new ≤ length line.old + 38 }
{
    match who {
        Who::Terminal(terminal) => line.push(terminal_name(site, terminal)),
        Who::File { process, file } => {
            line.push(process_name(site, process));
            line.push(b"/");
            line.push(variable_name(site, process, file));
        }
    }
}

/// The name of the variable of a file, empty where it isn't there.
pub fn variable_name(site: &Site, process: u8, file: u8) -> &[u8]
    ensures name { result.now ≡ variable_name site.now process file }
    ensures short { length result.now ≤ 31 }
{
    match site.processes.get(usize::from(process)) {
        Some(spec) => variable_in(&spec.what, file),
        None => &[],
    }
}

fn variable_in(what: &Kind, file: u8) -> &[u8]
    ensures name { result.now ≡ variable_in what.now file }
    ensures short { length result.now ≤ 31 }
{
    let Kind::Pair(program) = what else {
        return &[];
    };
    let Some(used) = program.files.get(usize::from(file)) else {
        return &[];
    };
    match program.items.get(usize::from(used.item)) {
        Some(item) => item.name.text(),
        None => &[],
    }
}
