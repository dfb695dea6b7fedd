ghost use Rattle.std.specs.Prelude.{◌≡◌, ◌≤◌, length, map, IfOk};
ghost use Rattle.advice.specs.Answer.{checkpoints_of as program_checkpoints};
ghost use Rattle.advice.specs.reason_dues.specs.Sets.{has_number};
ghost use Rattle.advice_search.specs.Gathered.{has_in};
ghost use Rattle.advice_search.specs.Lists.{place_of, numbers_below, advised};
ghost use Rattle.gd_words.specs.declared.limits.TheConstants.{MOST_GLOBALS};

use crate::checkpoints::{Checkpoint, checkpoints_of};
use crate::due_sets::DueSets;
use advice::{Advised, Numbers};
use gd_words::{List, NoMemory};
use std::alloc::Global;
use tal_tree::Program;

/// A list for each CHECKPOINT of a program, in the order of the text, with what is due there.
pub(crate) fn lists_of(
    alloc: Global,
    program: &Program,
    items: &DueSets,
    files: &DueSets,
) -> Result<List<Advised>, NoMemory>
    requires items { length program.now.items ≤ MOST_GLOBALS }
    requires files { length program.now.files ≤ 64 }
    ensures { IfOk result (λ lists. lists ≡ map
        (λ checkpoint. advised program.now items.now.sets.items files.now.sets.items checkpoint)
        (map place_of (program_checkpoints program.now))) }
{
    let checkpoints = checkpoints_of(alloc, program)?;
    let checkpoints = checkpoints.as_slice();
    let mut lists = List::new(alloc);
    for checkpoint in checkpoints {
        lists.push(list_of(alloc, program, items, files, *checkpoint)?)?;
    }
    Ok(lists)
}

/// The list for a CHECKPOINT.
fn list_of(
    alloc: Global,
    program: &Program,
    items: &DueSets,
    files: &DueSets,
    checkpoint: Checkpoint,
) -> Result<Advised, NoMemory>
    requires items { length program.now.items ≤ MOST_GLOBALS }
    requires files { length program.now.files ≤ 64 }
    ensures { IfOk result (λ list. list ≡ advised program.now items.now.sets.items files.now.sets.items checkpoint) }
{
    let Checkpoint { statement, line } = checkpoint;
    let items = items_in(alloc, items.get(statement), program.items.len() as u16)?;
    let files = files_in(alloc, files.get(statement), program.files.len() as u8)?;
    Ok(Advised {
        statement,
        line,
        items,
        files,
    })
}

/// The globals in a set, ascending.
fn items_in(alloc: Global, set: Numbers, count: u16) -> Result<List<u16>, NoMemory>
    requires { count ≤ 64 }
    ensures { IfOk result (λ items. items ≡ numbers_below (λ n. has_number set n) count) }
{
    let mut items = List::new(alloc);
    for item in 0..count {
        if set.has(item) {
            items.push(item)?;
        }
    }
    Ok(items)
}

/// The files in a set, ascending.
fn files_in(alloc: Global, set: Numbers, count: u8) -> Result<List<u8>, NoMemory>
    requires { count ≤ 64 }
    ensures { IfOk result (λ files. files ≡ numbers_below (λ n. has_number set n) count) }
{
    let mut files = List::new(alloc);
    for file in 0..count {
        if set.has(u16::from(file)) {
            files.push(file)?;
        }
    }
    Ok(files)
}
