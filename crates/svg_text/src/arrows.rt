ghost use Rattle.std.specs.Prelude.{◌≡◌, ◌++◌, OnOk};
ghost use Rattle.svg_text.specs.Sheets.{head_text, marker_attributes, marker_place, marker_size, path_text};

use crate::elements::put_attribute;
use gd_words::{List, NoMemory};
use text_pieces::put;

/// Puts the head of arrows behind the text, as it is drawn where a line ends.
pub(crate) fn put_head(text: &mut List<u8>) -> Result<(), NoMemory>
    ensures { OnOk result (text.new ≡ text.old ++ head_text) }
{
    put(text, b"<defs><marker")?;
    put_marker_attributes(text)?;
    put(text, b">")?;
    put_path(text)?;
    put(text, b"</marker></defs>")
}

fn put_marker_attributes(text: &mut List<u8>) -> Result<(), NoMemory>
    ensures { OnOk result (text.new ≡ text.old ++ marker_attributes) }
{
    put_marker_place(text)?;
    put_marker_size(text)
}

fn put_marker_place(text: &mut List<u8>) -> Result<(), NoMemory>
    ensures { OnOk result (text.new ≡ text.old ++ marker_place) }
{
    put_attribute(text, b"id", b"head")?;
    put_attribute(text, b"viewBox", b"0 0 8 8")?;
    put_attribute(text, b"refX", b"8")?;
    put_attribute(text, b"refY", b"4")
}

fn put_marker_size(text: &mut List<u8>) -> Result<(), NoMemory>
    ensures { OnOk result (text.new ≡ text.old ++ marker_size) }
{
    put_attribute(text, b"markerWidth", b"8")?;
    put_attribute(text, b"markerHeight", b"8")?;
    put_attribute(text, b"markerUnits", b"userSpaceOnUse")?;
    put_attribute(text, b"orient", b"auto")
}

fn put_path(text: &mut List<u8>) -> Result<(), NoMemory>
    ensures { OnOk result (text.new ≡ text.old ++ path_text) }
{
    put(text, b"<path")?;
    put_attribute(text, b"d", b"M0 1L8 4L0 7z")?;
    put(text, b"/>")
}
