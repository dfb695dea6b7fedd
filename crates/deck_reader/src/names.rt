ghost use Rattle.std.specs.Prelude.{◌≡◌};
ghost use Rattle.std.specs.List.{list_all};
ghost use Rattle.deck_reader.specs.Names.{is_process, is_known, is_other, files_misnamed, kind_misnamed};
ghost use Rattle.deck_reader.specs.Names.{process_misnamed, first_of, event_misnamed, earlier_than, earlier};
ghost use Rattle.deck_reader.specs.Refusals.{name_fault};

use crate::outline::{Body, ProcessLines, is_process};
use gd_words::Name;
use name_table::NameTable;
use tal_tree::{DeckFault, FileUse, Kind, Target};

/// A line that names what isn't there or, where `own` is set, whose program opens its own pair.
#[derive(Clone, Copy, Drop)]
pub struct NameFault {
    pub line: u32,
    pub own: bool,
}

/// What the process of these lines, among all these processes, names amiss.
pub fn process_misnamed(
    processes: &NameTable<ProcessLines>,
    own: &Name,
    body: &Body,
    what: &Kind,
) -> Option<NameFault>
    ensures { result ≡ process_misnamed processes.now own.now body.now what.now }
{
    match body {
        Body::Disc { .. } => None,
        Body::Pair(lines) => pair_misnamed(processes, own, lines.line, what),
    }
}

fn pair_misnamed(
    processes: &NameTable<ProcessLines>,
    own: &Name,
    line: u32,
    what: &Kind,
) -> Option<NameFault>
    ensures { result ≡ kind_misnamed processes.now own.now line what.now }
{
    match what {
        Kind::Disc { .. } => None,
        Kind::Pair(program) => files_misnamed(processes, line, own, program.files.as_slice()),
    }
}

fn files_misnamed(
    processes: &NameTable<ProcessLines>,
    line: u32,
    own: &Name,
    files: &[FileUse],
) -> Option<NameFault>
    ensures { result ≡ files_misnamed processes.now line own.now files.now }
{
    if !are_known(processes, files) {
        return Some(NameFault { line, own: false });
    }
    if !are_others(own, files) {
        return Some(NameFault { line, own: true });
    }
    None
}

fn are_known(processes: &NameTable<ProcessLines>, files: &[FileUse]) -> bool
    ensures { result ≡ list_all (λ file. is_known processes.now file.target) files.now }
{
    files.iter().all(|file| is_known(processes, &file.target))
}

fn are_others(own: &Name, files: &[FileUse]) -> bool
    ensures { result ≡ list_all (λ file. is_other own.now file.target) files.now }
{
    files.iter().all(|file| is_other(own, &file.target))
}

/// Whether a file is opened to `$RECEIVE` or to one of these processes.
fn is_known(processes: &NameTable<ProcessLines>, target: &Target) -> bool
    ensures { result ≡ is_known processes.now target.now }
{
    match target {
        Target::Receive => true,
        Target::Process(name) => is_process(processes, name),
    }
}

/// Whether a file isn't opened to the process of this name.
fn is_other(own: &Name, target: &Target) -> bool
    ensures { result ≡ is_other own.now target.now }
{
    match target {
        Target::Receive => true,
        Target::Process(name) => name.text() != own.text(),
    }
}

/// The first of two, where it is there.
pub fn first_of(first: Option<NameFault>, later: Option<NameFault>) -> Option<NameFault>
    ensures { result ≡ first_of first later }
{
    match first {
        None => later,
        Some(first) => Some(first),
    }
}

/// The event line of this number, if there is one.
pub fn event_misnamed(unknown: Option<u32>) -> Option<NameFault>
    ensures { result ≡ event_misnamed unknown }
{
    let line = unknown?;
    Some(NameFault { line, own: false })
}

/// The one on the earlier line.
pub fn earlier_than(one: NameFault, other: Option<NameFault>) -> NameFault
    ensures { result ≡ earlier_than one other }
{
    match other {
        None => one,
        Some(other) => { if other.line < one.line { other } else { one } }
    }
}

/// The one on the earlier line, if there is one.
pub fn earlier(one: Option<NameFault>, other: Option<NameFault>) -> Option<NameFault>
    ensures { result ≡ earlier one other }
{
    match one {
        None => other,
        Some(one) => Some(earlier_than(one, other)),
    }
}

/// The fault of a deck for a line that names amiss.
pub fn name_fault(misnamed: NameFault) -> DeckFault
    ensures { result ≡ name_fault misnamed }
{
    if misnamed.own {
        DeckFault::OpensItself(misnamed.line)
    } else {
        DeckFault::UnknownName(misnamed.line)
    }
}
