ghost use Rattle.std.specs.Prelude.{◌≡◌, ◌++◌, OnOk};
ghost use Rattle.finding_text.specs.Names.{file_name, item_name, listed_name};

use crate::lists::Listed;
use gd_words::{List, NoMemory};
use tal_tree::Program;
use text_pieces::put;

/// Puts the name of a global behind the text.
pub(crate) fn put_item(text: &mut List<u8>, program: &Program, item: u16) -> Result<(), NoMemory>
    ensures { OnOk result (text.new ≡ text.old ++ item_name program.now item) }
{
    put(text, item_name(program, item))
}

/// Puts the name of a file's variable behind the text.
pub(crate) fn put_file(text: &mut List<u8>, program: &Program, file: usize) -> Result<(), NoMemory>
    ensures { OnOk result (text.new ≡ text.old ++ file_name program.now file) }
{
    put(text, file_name(program, file))
}

/// Puts the name of what stands in a list behind the text.
pub(crate) fn put_listed(
    text: &mut List<u8>,
    program: &Program,
    listed: Listed,
) -> Result<(), NoMemory>
    ensures { OnOk result (text.new ≡ text.old ++ listed_name program.now listed) }
{
    match listed {
        Listed::Item(item) => put_item(text, program, item),
        Listed::File(file) => put_file(text, program, usize::from(file)),
    }
}

fn item_name(program: &Program, item: u16) -> &[u8]
    ensures { result.now ≡ item_name program.now item }
{
    match program.items.get(usize::from(item)) {
        None => &[],
        Some(found) => found.name.text(),
    }
}

fn file_name(program: &Program, file: usize) -> &[u8]
    ensures { result.now ≡ file_name program.now file }
{
    match program.files.get(file) {
        None => &[],
        Some(opened) => item_name(program, opened.item),
    }
}
