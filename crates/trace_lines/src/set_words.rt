ghost use Rattle.std.specs.Prelude.{◌≡◌, ◌++◌, OnOk};
ghost use Rattle.std.specs.Option.{option_copied};
ghost use Rattle.trace_lines.specs.SetWords.{index_text, item_at, item_in, item_text, place_text, set_text};

use gd_words::{List, NoMemory, decimal_of};
use tal_tree::{Item, Kind, Shape, Site};
use text_pieces::put;

/// Puts a word of a global of a process, and what it was set to, behind the text.
pub(crate) fn put_set(
    text: &mut List<u8>,
    site: &Site,
    process: u8,
    item: usize,
    place: usize,
    value: i16,
) -> Result<(), NoMemory>
    ensures { OnOk result (text.new ≡ text.old ++ set_text site.now process item place value) }
{
    put_item(text, item_at(site, process, item), place)?;
    put(text, b" = ")?;
    put(text, decimal_of(i64::from(value)).bytes())
}

/// A global of a process by its number.
fn item_at(site: &Site, process: u8, item: usize) -> Option<&Item>
    ensures { option_copied result ≡ item_at site.now process item }
{
    let spec = site.processes.get(usize::from(process))?;
    item_in(item, &spec.what)
}

fn item_in(item: usize, what: &Kind) -> Option<&Item>
    ensures { option_copied result ≡ item_in item what.now }
{
    match what {
        Kind::Disc { .. } => None,
        Kind::Pair(program) => program.items.get(item),
    }
}

fn put_item(text: &mut List<u8>, item: Option<&Item>, place: usize) -> Result<(), NoMemory>
    ensures { OnOk result (text.new ≡ text.old ++ item_text (option_copied item.entry) place) }
{
    match item {
        None => Ok(()),
        Some(item) => {
            put(text, item.name.text())?;
            put_place(text, item.shape, place)
        }
    }
}

fn put_place(text: &mut List<u8>, shape: Shape, place: usize) -> Result<(), NoMemory>
    ensures { OnOk result (text.new ≡ text.old ++ place_text shape place) }
{
    match shape {
        Shape::Simple => Ok(()),
        Shape::Array { low, high: _ } => put_index(text, low, place),
        Shape::File(_) => Ok(()),
    }
}

fn put_index(text: &mut List<u8>, low: i16, place: usize) -> Result<(), NoMemory>
    ensures { OnOk result (text.new ≡ text.old ++ index_text low place) }
{
    if place > 65_535 {
        return Ok(());
    }
    put(text, b"[")?;
    put(text, decimal_of(i64::from(low) + place as i64).bytes())?;
    put(text, b"]")
}
