ghost use Rattle.std.specs.Prelude.{◌≡◌, ◌++◌, IfOk, OnOk};
ghost use Rattle.pair_findings.specs.advice.specs.Answer.{files_among, items_among};
ghost use Rattle.gd_words.specs.Members.{is_among};
ghost use Rattle.finding_text.specs.Lists.{all_listed, files_of, items_of, lacking, needless};
ghost use Rattle.finding_text.specs.Lists.{others_of_files, others_of_items};

use gd_words::{List, NoMemory};
use pair_findings::{Advised, NamedCheckpoint};
use std::alloc::Global;

/// What a CHECKPOINT names: a global by its item's number, or a file by its number in the order of the OPENs.
#[derive(Clone, Copy, PartialEq, Eq, Drop)]
pub enum Listed {
    Item(u16),
    File(u8),
}

/// All that a CHECKPOINT names.
pub(crate) fn all_listed(alloc: Global, named: &NamedCheckpoint) -> Result<List<Listed>, NoMemory>
    ensures { IfOk result (λ all. all ≡ all_listed named.now) }
{
    let mut all = List::new(alloc);
    push_items(&mut all, named.items.as_slice())?;
    push_files(&mut all, named.files.as_slice())?;
    Ok(all)
}

/// What a CHECKPOINT has to name by an advice, and doesn't.
pub(crate) fn lacking(
    alloc: Global,
    named: &NamedCheckpoint,
    advised: &[Advised],
) -> Result<List<Listed>, NoMemory>
    ensures { IfOk result (λ all. all ≡ lacking named.now advised.now) }
{
    let items = items_among(advised, named.statement);
    let files = files_among(advised, named.statement);
    let mut all = List::new(alloc);
    push_other_items(&mut all, items, named.items.as_slice())?;
    push_other_files(&mut all, files, named.files.as_slice())?;
    Ok(all)
}

/// What a CHECKPOINT names, and by an advice doesn't have to.
pub(crate) fn needless(
    alloc: Global,
    named: &NamedCheckpoint,
    advised: &[Advised],
) -> Result<List<Listed>, NoMemory>
    ensures { IfOk result (λ all. all ≡ needless named.now advised.now) }
{
    let items = items_among(advised, named.statement);
    let files = files_among(advised, named.statement);
    let mut all = List::new(alloc);
    push_other_items(&mut all, named.items.as_slice(), items)?;
    push_other_files(&mut all, named.files.as_slice(), files)?;
    Ok(all)
}

/// Puts globals behind what is listed.
fn push_items(all: &mut List<Listed>, items: &[u16]) -> Result<(), NoMemory>
    ensures { OnOk result (all.new ≡ all.old ++ items_of items.now) }
{
    for item in items {
        all.push(Listed::Item(*item))?;
    }
    Ok(())
}

/// Puts files behind what is listed.
fn push_files(all: &mut List<Listed>, files: &[u8]) -> Result<(), NoMemory>
    ensures { OnOk result (all.new ≡ all.old ++ files_of files.now) }
{
    for file in files {
        all.push(Listed::File(*file))?;
    }
    Ok(())
}

/// Puts those globals that aren't among others behind what is listed.
fn push_other_items(all: &mut List<Listed>, items: &[u16], others: &[u16]) -> Result<(), NoMemory>
    ensures { OnOk result (all.new ≡ all.old ++ others_of_items others.now items.now) }
{
    let mut left = items;
    while let Some((item, rest)) = left.split_first() {
        if !has_item(others, *item) {
            all.push(Listed::Item(*item))?;
        }
        left = rest;
    }
    Ok(())
}

/// Puts those files that aren't among others behind what is listed.
fn push_other_files(all: &mut List<Listed>, files: &[u8], others: &[u8]) -> Result<(), NoMemory>
    ensures { OnOk result (all.new ≡ all.old ++ others_of_files others.now files.now) }
{
    let mut left = files;
    while let Some((file, rest)) = left.split_first() {
        if !has_file(others, *file) {
            all.push(Listed::File(*file))?;
        }
        left = rest;
    }
    Ok(())
}

fn has_item(items: &[u16], item: u16) -> bool
    ensures { result ≡ is_among item items.now }
{
    items.contains(&item)
}

fn has_file(files: &[u8], file: u8) -> bool
    ensures { result ≡ is_among file files.now }
{
    files.contains(&file)
}

/// The globals that an advice has for the CHECKPOINT of a number.
fn items_among(advised: &[Advised], number: u16) -> &[u16]
    ensures { result.now ≡ items_among advised.now number }
{
    let mut left = advised;
    while let Some((one, rest)) = left.split_first() {
        if one.statement == number {
            return one.items.as_slice();
        }
        left = rest;
    }
    &[]
}

/// The files that an advice has for the CHECKPOINT of a number.
fn files_among(advised: &[Advised], number: u16) -> &[u8]
    ensures { result.now ≡ files_among advised.now number }
{
    let mut left = advised;
    while let Some((one, rest)) = left.split_first() {
        if one.statement == number {
            return one.files.as_slice();
        }
        left = rest;
    }
    &[]
}
