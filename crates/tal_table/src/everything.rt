ghost use Rattle.std.specs.Prelude.{◌≡◌, ◌≤◌, length, IfOk};
ghost use Rattle.checkpoint_image.specs.process_images.specs.Images.{asking_from, asks_a_process, listable_from};
ghost use Rattle.tal_tree.specs.Shapes.{has_words};
ghost use Rattle.gd_words.specs.declared.limits.TheConstants.{MOST_FILES, MOST_GLOBALS};

use checkpoint_image::Listed;
use gd_words::{List, NoMemory};
use std::alloc::Global;
use tal_tree::{FileUse, Item, Shape, Target};

/// All that a program with these items and files may name at a checkpoint: each item that has words, and each file that
/// is opened to a process.
pub(crate) fn everything(
    alloc: Global,
    items: &[Item],
    files: &[FileUse],
) -> Result<Listed, NoMemory>
    requires items { length items.now ≤ MOST_GLOBALS }
    requires files { length files.now ≤ MOST_FILES }
    ensures items { IfOk result (λ listed. listed.items ≡ listable_from 0 items.now) }
    ensures files { IfOk result (λ listed. listed.files ≡ asking_from 0 files.now) }
{
    let items = listable(alloc, items)?;
    let files = asking(alloc, files)?;
    Ok(Listed { items, files })
}

/// The numbers of the items that have words.
fn listable(alloc: Global, items: &[Item]) -> Result<List<u16>, NoMemory>
    requires { length items.now ≤ MOST_GLOBALS }
    ensures { IfOk result (λ numbers. numbers ≡ listable_from 0 items.now) }
{
    let mut numbers = List::new(alloc);
    for (number, item) in items.iter().enumerate() {
        if has_words(item.shape) {
            numbers.push(number as u16)?;
        }
    }
    Ok(numbers)
}

fn has_words(shape: Shape) -> bool
    ensures { result ≡ has_words shape }
{
    match shape {
        Shape::File(_) => false,
        Shape::Simple | Shape::Array { .. } => true,
    }
}

/// The numbers of the files that are opened to a process.
fn asking(alloc: Global, files: &[FileUse]) -> Result<List<u8>, NoMemory>
    requires { length files.now ≤ MOST_FILES }
    ensures { IfOk result (λ numbers. numbers ≡ asking_from 0 files.now) }
{
    let mut numbers = List::new(alloc);
    for (number, file) in files.iter().enumerate() {
        if asks_a_process(file.target) {
            numbers.push(number as u8)?;
        }
    }
    Ok(numbers)
}

fn asks_a_process(target: Target) -> bool
    ensures { result ≡ asks_a_process target }
{
    match target {
        Target::Process(_) => true,
        Target::Receive => false,
    }
}
