ghost use Rattle.std.specs.Prelude.{◌≡◌, ◌≤◌, length, slice_get, IfOk};
ghost use Rattle.std.specs.List.{All};
ghost use Rattle.std.specs.Option.{option_flatten};
ghost use Rattle.plain_machine.specs.Wiring.{file_row, file_rows, terminal_row, found_file};
ghost use Rattle.tal_tree.specs.declared.site.Who.TheVariants as who;
ghost use Rattle.plain_semantics.specs.Openers.{files_of, opener_of};
ghost use Rattle.plain_semantics.specs.SiteLimits.{KeepsSiteLimits};
ghost use Rattle.gd_words.specs.declared.limits.TheConstants.{MOST_FILES, MOST_PROCESSES, MOST_TERMINALS};

use gd_words::{List, NoMemory};
use plain_semantics::{Opener, files_of, opener_of};
use std::alloc::Global;
use tal_tree::{FileUse, ProcessSpec, Site, TerminalSpec, Who};

pub(crate) fn file_rows(
    alloc: Global,
    site: &Site,
    processes: &[ProcessSpec],
) -> Result<List<List<Option<Opener>>>, NoMemory>
    requires limits { KeepsSiteLimits site.now }
    requires few { length processes.now ≤ MOST_PROCESSES }
    requires files { All (λ spec. length (files_of spec.what) ≤ MOST_FILES) processes.now }
    ensures { IfOk result (λ rows. rows ≡ file_rows site.now 0 processes.now) }
{
    let mut rows = List::new(alloc);
    for (number, spec) in processes.iter().enumerate() {
        let row = file_row(alloc, site, number as u8, files_of(&spec.what))?;
        rows.push(row)?;
    }
    Ok(rows)
}

fn file_row(
    alloc: Global,
    site: &Site,
    process: u8,
    files: &[FileUse],
) -> Result<List<Option<Opener>>, NoMemory>
    requires limits { KeepsSiteLimits site.now }
    requires few { length files.now ≤ MOST_FILES }
    ensures { IfOk result (λ row. row ≡ file_row site.now process 0 files.now) }
{
    let mut row = List::new(alloc);
    for (number, _) in files.iter().enumerate() {
        let file = number as u8;
        let opener = opener_of(alloc, site, Who::File { process, file })?;
        row.push(opener)?;
    }
    Ok(row)
}

pub(crate) fn terminal_row(
    alloc: Global,
    site: &Site,
    terminals: &[TerminalSpec],
) -> Result<List<Option<Opener>>, NoMemory>
    requires limits { KeepsSiteLimits site.now }
    requires few { length terminals.now ≤ MOST_TERMINALS }
    ensures { IfOk result (λ row. row ≡ terminal_row site.now 0 terminals.now) }
{
    let mut row = List::new(alloc);
    for (number, _) in terminals.iter().enumerate() {
        let opener = opener_of(alloc, site, Who::Terminal(number as u8))?;
        row.push(opener)?;
    }
    Ok(row)
}

pub(crate) fn found_file(
    rows: &List<List<Option<Opener>>>,
    process: usize,
    file: u8,
) -> Option<Opener>
    ensures { result ≡ found_file rows.now process file }
{
    match rows.get(process) {
        None => None,
        Some(row) => match row.get(usize::from(file)) {
            None => None,
            Some(opener) => *opener,
        },
    }
}

pub(crate) fn found_terminal(row: &List<Option<Opener>>, terminal: usize) -> Option<Opener>
    ensures { result ≡ option_flatten (slice_get row.now terminal) }
{
    match row.get(terminal) {
        None => None,
        Some(opener) => *opener,
    }
}
