ghost use Rattle.std.specs.Prelude.{◌≡◌, ◌++◌, codes, flat_map, IfOk, OnOk};
ghost use Rattle.svg_text.specs.Escapes.{worded};
ghost use Rattle.svg_text.specs.Looks.{rule_text, style_text};
ghost use Rattle.svg_text.specs.Shapes.{group_text};
ghost use Rattle.svg_text.specs.Sheets.{drawing_text, root_attributes, root_text, sheet_text, style_sheet, view_box};

use crate::arrows::put_head;
use crate::drawing::{Drawing, Group};
use crate::elements::{put_attribute, put_escaped, put_number};
use crate::looks::{Look, look_name, look_style};
use crate::shapes::put_group;
use gd_words::{List, NoMemory};
use std::alloc::Global;
use text_pieces::{put, put_number as put_digits};

/// Puts a drawing behind the text.
pub fn put_drawing(alloc: Global, text: &mut List<u8>, drawing: &Drawing) -> Result<(), NoMemory>
    ensures { OnOk result (text.new ≡ text.old ++ drawing_text drawing.now) }
{
    put_root(alloc, text, drawing)?;
    put(text, b"\n")
}

fn put_root(alloc: Global, text: &mut List<u8>, drawing: &Drawing) -> Result<(), NoMemory>
    ensures { OnOk result (text.new ≡ text.old ++ root_text drawing.now) }
{
    put(text, b"<svg")?;
    put_root_attributes(alloc, text, drawing.width, drawing.height)?;
    put(text, b">")?;
    put_sheet(text, drawing)?;
    put(text, b"</svg>")
}

fn put_root_attributes(
    alloc: Global,
    text: &mut List<u8>,
    width: u32,
    height: u32,
) -> Result<(), NoMemory>
    ensures { OnOk result (text.new ≡ text.old ++ root_attributes width height) }
{
    put_attribute(text, b"xmlns", b"http://www.w3.org/2000/svg")?;
    put_number(text, b"width", width)?;
    put_number(text, b"height", height)?;
    put_view_box(alloc, text, width, height)
}

fn put_view_box(alloc: Global, text: &mut List<u8>, width: u32, height: u32) -> Result<(), NoMemory>
    ensures { OnOk result (text.new ≡ text.old ++ worded (codes "viewBox") (view_box width height)) }
{
    let seen = view_box(alloc, width, height)?;
    put_attribute(text, b"viewBox", seen.as_slice())
}

fn view_box(alloc: Global, width: u32, height: u32) -> Result<List<u8>, NoMemory>
    ensures { IfOk result (λ seen. seen ≡ view_box width height) }
{
    let mut seen = List::new(alloc);
    put(&mut seen, b"0 0 ")?;
    put_digits(&mut seen, u64::from(width))?;
    put(&mut seen, b" ")?;
    put_digits(&mut seen, u64::from(height))?;
    Ok(seen)
}

/// Puts what stands in a drawing behind the text.
fn put_sheet(text: &mut List<u8>, drawing: &Drawing) -> Result<(), NoMemory>
    ensures { OnOk result (text.new ≡ text.old ++ sheet_text drawing.now) }
{
    put_style_sheet(text)?;
    put_head(text)?;
    put(text, b"\n")?;
    put_group(text, &drawing.under)?;
    put_groups(text, drawing.groups.as_slice())
}

fn put_style_sheet(text: &mut List<u8>) -> Result<(), NoMemory>
    ensures { OnOk result (text.new ≡ text.old ++ style_sheet) }
{
    put(text, b"<style>")?;
    put_style(text)?;
    put(text, b"</style>")
}

/// Puts what the style sheet says behind the text: of all words, and of each look.
fn put_style(text: &mut List<u8>) -> Result<(), NoMemory>
    ensures { OnOk result (text.new ≡ text.old ++ style_text) }
{
    let looks = [
        Look::Lane,
        Look::Acting,
        Look::Watching,
        Look::Gone,
        Look::Name,
        Look::Event,
        Look::Message,
        Look::Lost,
        Look::Thin,
        Look::Alive,
        Look::Stroke,
        Look::Dot,
        Look::Token,
        Look::Letter,
        Look::Hold,
        Look::Key,
    ];
    put_escaped(text, b"\ntext{font:11px sans-serif}\n")?;
    put_rules(text, &looks)
}

fn put_rules(text: &mut List<u8>, looks: &[Look]) -> Result<(), NoMemory>
    ensures { OnOk result (text.new ≡ text.old ++ flat_map rule_text looks.now) }
{
    for look in looks {
        put_rule(text, *look)?;
    }
    Ok(())
}

fn put_rule(text: &mut List<u8>, look: Look) -> Result<(), NoMemory>
    ensures { OnOk result (text.new ≡ text.old ++ rule_text look) }
{
    put_escaped(text, b".")?;
    put_escaped(text, look_name(look))?;
    put_escaped(text, b"{")?;
    put_escaped(text, look_style(look))?;
    put_escaped(text, b"}\n")
}

fn put_groups(text: &mut List<u8>, groups: &[Group]) -> Result<(), NoMemory>
    ensures { OnOk result (text.new ≡ text.old ++ flat_map group_text groups.now) }
{
    for group in groups {
        put_group(text, group)?;
    }
    Ok(())
}
