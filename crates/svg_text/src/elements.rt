ghost use Rattle.std.specs.Prelude.{◌≡◌, ◌++◌, OnOk};
ghost use Rattle.svg_text.specs.Xml.{end_tag, is_markup, is_sign, stands_for_itself, start_of_tag};
ghost use Rattle.svg_text.specs.Escapes.{escaped, escaped_text, named, numbered, worded};

use gd_words::{List, NoMemory};
use itoa::Buffer;
use text_pieces::put;

/// Puts words behind the text, each sign so that it means itself.
pub(crate) fn put_escaped(text: &mut List<u8>, words: &[u8]) -> Result<(), NoMemory>
    ensures { OnOk result (text.new ≡ text.old ++ escaped_text words.now) }
{
    for sign in words {
        put_sign(text, *sign)?;
    }
    Ok(())
}

fn put_sign(text: &mut List<u8>, sign: u8) -> Result<(), NoMemory>
    ensures { OnOk result (text.new ≡ text.old ++ escaped sign) }
{
    if stands_for_itself(sign) {
        text.push(sign)
    } else {
        put(text, named(sign))
    }
}

fn stands_for_itself(sign: u8) -> bool
    ensures { result ≡ stands_for_itself sign }
{
    is_sign(sign) && !is_markup(sign)
}

fn is_sign(sign: u8) -> bool
    ensures { result ≡ is_sign sign }
{
    sign == b'\t' || sign == b'\n' || (32 <= sign && sign <= 126)
}

fn is_markup(sign: u8) -> bool
    ensures { result ≡ is_markup sign }
{
    sign == b'"' || sign == b'&' || sign == b'<' || sign == b'>'
}

/// What stands for a sign that doesn't stand for itself.
fn named(sign: u8) -> &'static [u8]
    ensures { result.now ≡ named sign }
{
    if sign == b'"' {
        b"&quot;"
    } else if sign == b'&' {
        b"&amp;"
    } else if sign == b'<' {
        b"&lt;"
    } else if sign == b'>' {
        b"&gt;"
    } else {
        b"?"
    }
}

/// Puts the beginning of a tag behind the text, up to its attributes.
pub(crate) fn put_start(text: &mut List<u8>, name: &[u8]) -> Result<(), NoMemory>
    ensures { OnOk result (text.new ≡ text.old ++ start_of_tag name.now) }
{
    put(text, b"<")?;
    put(text, name)
}

/// Puts an attribute with these words behind the text.
pub(crate) fn put_attribute(text: &mut List<u8>, name: &[u8], words: &[u8]) -> Result<(), NoMemory>
    ensures { OnOk result (text.new ≡ text.old ++ worded name.now words.now) }
{
    put(text, b" ")?;
    put(text, name)?;
    put(text, b"=\"")?;
    put_escaped(text, words)?;
    put(text, b"\"")
}

/// Puts an attribute that is a number behind the text.
pub(crate) fn put_number(text: &mut List<u8>, name: &[u8], number: u32) -> Result<(), NoMemory>
    ensures { OnOk result (text.new ≡ text.old ++ numbered name.now number) }
{
    let mut buffer = Buffer::new();
    put_attribute(text, name, buffer.format(number).as_bytes())
}

/// Puts the end of an element behind the text.
pub(crate) fn put_end(text: &mut List<u8>, name: &[u8]) -> Result<(), NoMemory>
    ensures { OnOk result (text.new ≡ text.old ++ end_tag name.now) }
{
    put(text, b"</")?;
    put(text, name)?;
    put(text, b">")
}
