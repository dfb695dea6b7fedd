ghost use Rattle.std.specs.Prelude.{◌≡◌, ◌≤◌, ◌++◌, length, IfOk, OnOk};
ghost use Rattle.std.specs.List.{All};
ghost use Rattle.plain_semantics.specs.SiteLimits.{KeepsSiteLimits};
ghost use Rattle.plain_semantics.specs.Openers.{same_name, opens, file_opener, files_from, files_of, processes_from};
ghost use Rattle.plain_semantics.specs.Openers.{terminals_from, openers_of, same_who, place_from, named_from};
ghost use Rattle.plain_semantics.specs.Openers.{server_of, server_by, opener_at, opener_of};
ghost use Rattle.process_semantics.specs.gd_words.specs.declared.limits.TheConstants.{MOST_FILES, MOST_PROCESSES};
ghost use Rattle.process_semantics.specs.gd_words.specs.declared.limits.TheConstants.{MOST_TERMINALS};

use crate::slot::Opener;
use process_semantics::{
    FileUse, Kind, List, Name, NoMemory, OpenerSpec, ProcessSpec, Site, Target, TerminalSpec, Who,
};
use std::alloc::Global;

/// The openers of a process, in order.
pub fn openers(alloc: Global, site: &Site, process: usize) -> Result<List<OpenerSpec>, NoMemory>
    requires { KeepsSiteLimits site.now }
    ensures openers { IfOk result (λ all. all ≡ openers_of site.now process) }
    ensures few { IfOk result (λ all. length all ≤ 144) }
{
    let all = all_openers(alloc, site, process)?;
    Ok(all)
}

fn all_openers(alloc: Global, site: &Site, process: usize) -> Result<List<OpenerSpec>, NoMemory>
    requires { KeepsSiteLimits site.now }
    ensures { IfOk result (λ all. all ≡ openers_of site.now process) }
{
    let mut all = List::new(alloc);
    if let Some(named) = site.processes.get(process) {
        put_processes(&mut all, &named.name, site.processes.as_slice())?;
        put_terminals(&mut all, process, site.terminals.as_slice())?;
    }
    Ok(all)
}

/// Where an opener stands.
pub fn opener_of(alloc: Global, site: &Site, who: Who) -> Result<Option<Opener>, NoMemory>
    requires { KeepsSiteLimits site.now }
    ensures { IfOk result (λ opener. opener ≡ opener_of site.now who) }
{
    match server_by(site, who) {
        None => Ok(None),
        Some(server) => {
            let all = openers(alloc, site, server)?;
            Ok(placed(server, who, all.as_slice()))
        }
    }
}

/// The files of a process: a disc has none.
pub fn files_of(kind: &Kind) -> &[FileUse]
    ensures { result.now ≡ files_of kind.now }
{
    match kind {
        Kind::Disc { .. } => &[],
        Kind::Pair(program) => program.files.as_slice(),
    }
}

fn put_processes(
    all: &mut List<OpenerSpec>,
    name: &Name,
    processes: &[ProcessSpec],
) -> Result<(), NoMemory>
    requires few { length processes.now ≤ MOST_PROCESSES }
    requires files { All (λ spec. length (files_of spec.what) ≤ MOST_FILES) processes.now }
    ensures { OnOk result (all.new ≡ all.old ++ processes_from name.now 0 processes.now) }
{
    for (number, process) in processes.iter().enumerate() {
        put_files(all, name, number as u8, files_of(&process.what))?;
    }
    Ok(())
}

fn put_files(
    all: &mut List<OpenerSpec>,
    name: &Name,
    process: u8,
    files: &[FileUse],
) -> Result<(), NoMemory>
    requires { length files.now ≤ MOST_FILES }
    ensures { OnOk result (all.new ≡ all.old ++ files_from name.now process 0 files.now) }
{
    for (number, file) in files.iter().enumerate() {
        put_file(all, name, process, number as u8, file)?;
    }
    Ok(())
}

fn put_file(
    all: &mut List<OpenerSpec>,
    name: &Name,
    process: u8,
    file: u8,
    used: &FileUse,
) -> Result<(), NoMemory>
    ensures { OnOk result (all.new ≡ all.old ++ file_opener name.now process file used.now) }
{
    if opens(name, &used.target) {
        let who = Who::File { process, file };
        let depth = used.depth;
        all.push(OpenerSpec { who, depth })?;
    }
    Ok(())
}

fn put_terminals(
    all: &mut List<OpenerSpec>,
    process: usize,
    terminals: &[TerminalSpec],
) -> Result<(), NoMemory>
    requires { length terminals.now ≤ MOST_TERMINALS }
    ensures { OnOk result (all.new ≡ all.old ++ terminals_from process 0 terminals.now) }
{
    for (number, terminal) in terminals.iter().enumerate() {
        if usize::from(terminal.target) == process {
            let who = Who::Terminal(number as u8);
            all.push(OpenerSpec { who, depth: 1 })?;
        }
    }
    Ok(())
}

/// Whether a file is opened to this name.
pub(crate) fn opens(name: &Name, target: &Target) -> bool
    ensures { result ≡ opens name.now target.now }
{
    match target {
        Target::Receive => false,
        Target::Process(other) => same_name(name, other),
    }
}

fn same_name(one: &Name, other: &Name) -> bool
    ensures { result ≡ same_name one.now other.now }
{
    one.text() == other.text()
}

fn server_by(site: &Site, who: Who) -> Option<usize>
    ensures { result ≡ server_by site.now who }
{
    match who {
        Who::File { process, file } => {
            let spec = site.processes.get(usize::from(process))?;
            let used = files_of(&spec.what).get(usize::from(file))?;
            server_of(site, &used.target)
        }
        Who::Terminal(terminal) => {
            let spec = site.terminals.get(usize::from(terminal))?;
            Some(usize::from(spec.target))
        }
    }
}

/// The process that what is opened so asks: none for `$RECEIVE`, and none if no process has the name.
pub fn server_of(site: &Site, target: &Target) -> Option<usize>
    ensures { result ≡ server_of site.now target.now }
{
    match target {
        Target::Receive => None,
        Target::Process(name) => named(name, site.processes.as_slice()),
    }
}

fn named(name: &Name, processes: &[ProcessSpec]) -> Option<usize>
    ensures { result ≡ named_from name.now 0 processes.now }
{
    for (number, process) in processes.iter().enumerate() {
        if same_name(name, &process.name) {
            return Some(number);
        }
    }
    None
}

fn placed(server: usize, who: Who, openers: &[OpenerSpec]) -> Option<Opener>
    ensures { result ≡ opener_at server (place_from who 0 openers.now) }
{
    let place = place_of(who, openers)?;
    Some(Opener { server, place })
}

fn place_of(who: Who, openers: &[OpenerSpec]) -> Option<usize>
    ensures { result ≡ place_from who 0 openers.now }
{
    for (place, opener) in openers.iter().enumerate() {
        if same_who(who, opener.who) {
            return Some(place);
        }
    }
    None
}

fn same_who(one: Who, other: Who) -> bool
    ensures { result ≡ same_who one other }
{
    match one {
        Who::File { process, file } => is_file(process, file, other),
        Who::Terminal(terminal) => is_terminal(terminal, other),
    }
}

fn is_file(process: u8, file: u8, who: Who) -> bool
    ensures { result ≡ same_who (Who.File process file) who }
{
    match who {
        Who::File {
            process: other_process,
            file: other_file,
        } => process == other_process && file == other_file,
        Who::Terminal(_) => false,
    }
}

fn is_terminal(terminal: u8, who: Who) -> bool
    ensures { result ≡ same_who (Who.Terminal terminal) who }
{
    match who {
        Who::File {
            process: _,
            file: _,
        } => false,
        Who::Terminal(other) => terminal == other,
    }
}
