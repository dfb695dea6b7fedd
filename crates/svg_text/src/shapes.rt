ghost use Rattle.std.specs.Prelude.{◌≡◌, ◌++◌, codes, flat_map, OnOk};
ghost use Rattle.svg_text.specs.Escapes.{escaped_text};
ghost use Rattle.svg_text.specs.Shapes.{bar_attributes, circle_attributes, group_text, line_attributes, look_attribute};
ghost use Rattle.svg_text.specs.Shapes.{bare_element, shape_text, title_text, words_attributes};
ghost use Rattle.svg_text.specs.Xml.{element, empty_element};

use crate::drawing::{Group, Shape, Spot};
use crate::elements::{put_attribute, put_end, put_escaped, put_number, put_start};
use crate::looks::{Look, look_name};
use gd_words::{List, NoMemory};
use text_pieces::put;

/// Puts shapes that have a title in common behind the text.
pub(crate) fn put_group(text: &mut List<u8>, group: &Group) -> Result<(), NoMemory>
    ensures { OnOk result (text.new ≡ text.old ++ group_text group.now) }
{
    put(text, b"<g>")?;
    put_title(text, group.title.as_slice())?;
    put_shapes(text, group.shapes.as_slice())?;
    put(text, b"</g>\n")
}

/// Puts a title behind the text, if there is one.
fn put_title(text: &mut List<u8>, title: &[u8]) -> Result<(), NoMemory>
    ensures { OnOk result (text.new ≡ text.old ++ title_text title.now) }
{
    match title {
        [] => Ok(()),
        [_, ..] => put_words_in(text, b"title", title),
    }
}

/// Puts an element with nothing but words behind the text.
fn put_words_in(text: &mut List<u8>, name: &[u8], words: &[u8]) -> Result<(), NoMemory>
    ensures { OnOk result (text.new ≡ text.old ++ bare_element name.now (escaped_text words.now)) }
{
    put_start(text, name)?;
    put(text, b">")?;
    put_escaped(text, words)?;
    put_end(text, name)
}

fn put_shapes(text: &mut List<u8>, shapes: &[Shape]) -> Result<(), NoMemory>
    ensures { OnOk result (text.new ≡ text.old ++ flat_map shape_text shapes.now) }
{
    for shape in shapes {
        put_shape(text, shape)?;
    }
    Ok(())
}

fn put_shape(text: &mut List<u8>, shape: &Shape) -> Result<(), NoMemory>
    ensures { OnOk result (text.new ≡ text.old ++ shape_text shape.now) }
{
    match shape {
        Shape::Line { look, from, to } => put_line(text, *look, *from, *to),
        Shape::Bar {
            look,
            at,
            width,
            height,
        } => put_bar(text, *look, *at, *width, *height),
        Shape::Circle { look, at, radius } => put_circle(text, *look, *at, *radius),
        Shape::Words { look, at, words } => put_words(text, *look, *at, words.as_slice()),
    }
}

fn put_line(text: &mut List<u8>, look: Look, from: Spot, to: Spot) -> Result<(), NoMemory>
    ensures { OnOk result (text.new ≡ text.old ++ empty_element (codes "line") (line_attributes look from to)) }
{
    put(text, b"<line")?;
    put_line_attributes(text, look, from, to)?;
    put(text, b"/>")
}

fn put_line_attributes(
    text: &mut List<u8>,
    look: Look,
    from: Spot,
    to: Spot,
) -> Result<(), NoMemory>
    ensures { OnOk result (text.new ≡ text.old ++ line_attributes look from to) }
{
    put_look(text, look)?;
    put_number(text, b"x1", from.x)?;
    put_number(text, b"y1", from.y)?;
    put_number(text, b"x2", to.x)?;
    put_number(text, b"y2", to.y)
}

fn put_look(text: &mut List<u8>, look: Look) -> Result<(), NoMemory>
    ensures { OnOk result (text.new ≡ text.old ++ look_attribute look) }
{
    put_attribute(text, b"class", look_name(look))
}

fn put_bar(
    text: &mut List<u8>,
    look: Look,
    at: Spot,
    width: u32,
    height: u32,
) -> Result<(), NoMemory>
    ensures { OnOk result (text.new ≡ text.old
        ++ empty_element (codes "rect") (bar_attributes look at width height)) }
{
    put(text, b"<rect")?;
    put_bar_attributes(text, look, at, width, height)?;
    put(text, b"/>")
}

fn put_bar_attributes(
    text: &mut List<u8>,
    look: Look,
    at: Spot,
    width: u32,
    height: u32,
) -> Result<(), NoMemory>
    ensures { OnOk result (text.new ≡ text.old ++ bar_attributes look at width height) }
{
    put_look(text, look)?;
    put_number(text, b"x", at.x)?;
    put_number(text, b"y", at.y)?;
    put_number(text, b"width", width)?;
    put_number(text, b"height", height)
}

fn put_circle(text: &mut List<u8>, look: Look, at: Spot, radius: u32) -> Result<(), NoMemory>
    ensures { OnOk result (text.new ≡ text.old
        ++ empty_element (codes "circle") (circle_attributes look at radius)) }
{
    put(text, b"<circle")?;
    put_circle_attributes(text, look, at, radius)?;
    put(text, b"/>")
}

fn put_circle_attributes(
    text: &mut List<u8>,
    look: Look,
    at: Spot,
    radius: u32,
) -> Result<(), NoMemory>
    ensures { OnOk result (text.new ≡ text.old ++ circle_attributes look at radius) }
{
    put_look(text, look)?;
    put_number(text, b"cx", at.x)?;
    put_number(text, b"cy", at.y)?;
    put_number(text, b"r", radius)
}

fn put_words(text: &mut List<u8>, look: Look, at: Spot, words: &[u8]) -> Result<(), NoMemory>
    ensures { OnOk result (text.new ≡ text.old
        ++ element (codes "text") (words_attributes look at) (escaped_text words.now)) }
{
    put(text, b"<text")?;
    put_words_attributes(text, look, at)?;
    put(text, b">")?;
    put_escaped(text, words)?;
    put(text, b"</text>")
}

fn put_words_attributes(text: &mut List<u8>, look: Look, at: Spot) -> Result<(), NoMemory>
    ensures { OnOk result (text.new ≡ text.old ++ words_attributes look at) }
{
    put_look(text, look)?;
    put_number(text, b"x", at.x)?;
    put_number(text, b"y", at.y)
}
