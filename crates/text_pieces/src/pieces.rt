ghost use Rattle.std.specs.Prelude.{◌≡◌, ◌++◌, OnOk, map, flat_map};
ghost use Rattle.std.specs.Fmt.{decimal};
ghost use Rattle.text_pieces.specs.Signs.{lead_sign, shown_sign};

use gd_words::{List, NoMemory};
use itoa::Buffer;

/// Puts a piece behind the text.
pub fn put(text: &mut List<u8>, piece: &[u8]) -> Result<(), NoMemory>
    ensures { OnOk result (text.new ≡ text.old ++ piece.now) }
{
    text.extend_from_slice(piece)
}

/// Puts a number in decimal digits behind the text.
pub fn put_number(text: &mut List<u8>, number: u64) -> Result<(), NoMemory>
    ensures { OnOk result (text.new ≡ text.old ++ decimal number) }
{
    let mut buffer = Buffer::new();
    put(text, buffer.format(number).as_bytes())
}

/// Puts the signs of a line as they are shown behind the text.
pub fn put_shown(text: &mut List<u8>, line: &[u8]) -> Result<(), NoMemory>
    ensures { OnOk result (text.new ≡ text.old ++ map shown_sign line.now) }
{
    for sign in line {
        text.push(shown_sign(*sign))?;
    }
    Ok(())
}

fn shown_sign(sign: u8) -> u8
    ensures { result ≡ shown_sign sign }
{
    if (sign <= 31 && sign != b'\t') || sign == 127 {
        b'?'
    } else {
        sign
    }
}

/// Puts behind the text what stands under these signs, before the caret.
pub fn put_lead(text: &mut List<u8>, before: &[u8]) -> Result<(), NoMemory>
    ensures { OnOk result (text.new ≡ text.old ++ flat_map lead_sign before.now) }
{
    for sign in before {
        put(text, lead_sign(*sign))?;
    }
    Ok(())
}

fn lead_sign(sign: u8) -> &'static [u8]
    ensures { result.now ≡ lead_sign sign }
{
    if sign == b'\t' {
        b"\t"
    } else if 128 <= sign && sign <= 191 {
        b""
    } else {
        b" "
    }
}
