//! The processes, terminals and openers of a site by their names in a report.
ghost use Rattle.std.specs.Prelude.{◌≡◌, ◌≤◌, ◌++◌, [], IfOk, codes, length, slice_get};
ghost use Rattle.std.specs.List.{All};
ghost use Rattle.std.specs.Option.{unwrap_or};
ghost use Rattle.std.specs.Str.{bytes_eq};
ghost use Rattle.gd_words.specs.declared.limits.TheConstants.{MOST_PROCESSES, MOST_TERMINALS};
ghost use Rattle.plain_semantics.specs.Openers.{named_from};
ghost use Rattle.plain_semantics.specs.SiteLimits.{KeepsSiteLimits};
ghost use Rattle.trace_print.specs.ActLine.{variable_name, who_name};
ghost use Rattle.report_reader.specs.Names.{AreOpeners, opener_from, opener_lists, opener_named, process_named};
ghost use Rattle.report_reader.specs.Names.{terminal_from, terminal_named};

use crate::parts::rest_after;
use gd_words::{List, NoMemory};
use plain_semantics::openers;
use std::alloc::Global;
use tal_tree::{OpenerSpec, ProcessSpec, Site, TerminalSpec, Who};
use trace_print::{process_name, terminal_name, variable_name};

/// The number of the process with this name.
pub fn process_named(site: &Site, name: &[u8]) -> Option<u8>
    requires { KeepsSiteLimits site.now }
    ensures { result ≡ process_named site.now name.now }
{
    process_among(site.processes.as_slice(), name)
}

fn process_among(processes: &[ProcessSpec], name: &[u8]) -> Option<u8>
    requires { length processes.now ≤ MOST_PROCESSES }
    ensures { result ≡ named_from name.now 0 processes.now }
{
    for (number, process) in processes.iter().enumerate() {
        if name == process.name.text() {
            return Some(number as u8);
        }
    }
    None
}

/// The number of the terminal with this name.
pub fn terminal_named(site: &Site, name: &[u8]) -> Option<u8>
    requires { KeepsSiteLimits site.now }
    ensures { result ≡ terminal_named site.now name.now }
{
    terminal_among(site.terminals.as_slice(), name)
}

fn terminal_among(terminals: &[TerminalSpec], name: &[u8]) -> Option<u8>
    requires { length terminals.now ≤ MOST_TERMINALS }
    ensures { result ≡ terminal_from name.now 0 terminals.now }
{
    for (number, terminal) in terminals.iter().enumerate() {
        if name == terminal.name.text() {
            return Some(number as u8);
        }
    }
    None
}

/// The openers of each process of a site, in deck order.
pub fn opener_lists(alloc: Global, site: &Site) -> Result<List<List<OpenerSpec>>, NoMemory>
    requires { KeepsSiteLimits site.now }
    ensures { IfOk result (AreOpeners site.now) }
{
    let lists = all_openers(alloc, site, site.processes.as_slice())?;
    Ok(lists)
}

fn all_openers(
    alloc: Global,
    site: &Site,
    specs: &[ProcessSpec],
) -> Result<List<List<OpenerSpec>>, NoMemory>
    requires { KeepsSiteLimits site.now }
    ensures lists { IfOk result (λ lists. lists ≡ opener_lists site.now 0 specs.now) }
    ensures few { IfOk result (λ lists. All (λ list. length list ≤ 144) lists) }
{
    let mut lists = List::new(alloc);
    for (number, _) in specs.iter().enumerate() {
        let one = openers(alloc, site, number)?;
        lists.push(one)?;
    }
    Ok(lists)
}

/// The place of the opener with this name among those of a process.
pub fn opener_named(
    site: &Site,
    lists: &[List<OpenerSpec>],
    process: u8,
    name: &[u8],
) -> Option<u16>
    requires limits { KeepsSiteLimits site.now }
    requires lists { AreOpeners site.now lists.now }
    ensures { result ≡ opener_named site.now process name.now }
{
    opener_among(site, list_at(lists, usize::from(process)), name)
}

fn list_at(lists: &[List<OpenerSpec>], process: usize) -> &[OpenerSpec]
    ensures { result.now ≡ unwrap_or (slice_get lists.now process) [] }
{
    match lists.get(process) {
        Some(list) => list.as_slice(),
        None => &[],
    }
}

fn opener_among(site: &Site, openers: &[OpenerSpec], name: &[u8]) -> Option<u16>
    requires { length openers.now ≤ 144 }
    ensures { result ≡ opener_from site.now name.now 0 openers.now }
{
    for (place, opener) in openers.iter().enumerate() {
        if is_named(site, opener.who, name) {
            return Some(place as u16);
        }
    }
    None
}

fn is_named(site: &Site, who: Who, name: &[u8]) -> bool
    ensures { result ≡ bytes_eq name.now (who_name site.now who) }
{
    match who {
        Who::Terminal(terminal) => name == terminal_name(site, terminal),
        Who::File { process, file } => is_file_named(site, process, file, name),
    }
}

/// Whether a file of a process has this name: that of the process, `/` and its variable.
fn is_file_named(site: &Site, process: u8, file: u8, name: &[u8]) -> bool
    ensures { result ≡ bytes_eq name.now (who_name site.now (Who.File process file)) }
{
    match rest_after(process_name(site, process), name) {
        None => false,
        Some(rest) => is_variable_named(site, process, file, rest),
    }
}

fn is_variable_named(site: &Site, process: u8, file: u8, text: &[u8]) -> bool
    ensures { result ≡ bytes_eq text.now (codes "/" ++ variable_name site.now process file) }
{
    match rest_after(b"/", text) {
        None => false,
        Some(variable) => is_same(variable, variable_name(site, process, file)),
    }
}

fn is_same(one: &[u8], other: &[u8]) -> bool
    ensures { result ≡ bytes_eq one.now other.now }
{
    one == other
}
