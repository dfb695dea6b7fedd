ghost use Rattle.std.specs.Prelude.{◌≡◌, IfOk, map, slice_get};
ghost use Rattle.std.specs.Option.{unwrap_or};
ghost use Rattle.computed_changes.specs.world_semantics.specs.Core.{with_files};
ghost use Rattle.computed_changes.specs.Fitting.{are_files};

use checkpoint_image::FileNumber;
use computed_changes::Asker;
use gd_words::{List, NoMemory};
use std::alloc::Global;

/// The number of the next request on a file.
pub fn next_on(asker: &Asker, file: u8) -> u32
    ensures { result ≡ unwrap_or (slice_get asker.now file) 1 }
{
    match asker.get(file) {
        None => 1,
        Some(number) => number,
    }
}

/// The next numbers of these files.
pub fn numbers_of(alloc: Global, asker: &Asker, files: &[u8]) -> Result<List<FileNumber>, NoMemory>
    ensures { IfOk result (λ numbers. numbers
        ≡ map (λ file. record { file = file; next = unwrap_or (slice_get asker.now file) 1 }) files.now) }
{
    let mut numbers = List::from_vec(Vec::with_capacity(alloc, files.len())?);
    for file in files {
        let file = *file;
        let next = next_on(asker, file);
        numbers.push(FileNumber { file, next })?;
    }
    Ok(numbers)
}

/// Whether there is each of these files.
pub fn are_files(asker: &Asker, files: &[FileNumber]) -> bool
    ensures { result ≡ are_files asker.now files.now }
{
    let count = asker.len();
    files.iter().all(|named| usize::from(named.file) < count)
}

/// Puts the next numbers of these files in the place of those that are there.
pub fn put_files(asker: &mut Asker, files: &[FileNumber])
    ensures { asker.new ≡ with_files files.now asker.old }
{
    for named in files {
        if usize::from(named.file) < asker.len() {
            asker.set(named.file, named.next);
        }
    }
}
