ghost use Rattle.std.specs.Prelude.{◌≡◌, ◌<◌, ◌∷◌, ◌++◌, OnOk, flat_map};
ghost use Rattle.std.specs.Char.{digit_char};
ghost use Rattle.json.specs.Print.{escape_byte, escape_letter};
ghost use Rattle.json_lines.specs.Strings.{later_text, plain_sign, sign_text, string_text, strings_text};

use gd_words::{List, NoMemory};
use text_pieces::put;

/// Puts a text as a string of JSON behind the text.
pub fn put_string(text: &mut List<u8>, one: &[u8]) -> Result<(), NoMemory>
    ensures { OnOk result (text.new ≡ text.old ++ string_text one.now) }
{
    put(text, b"\"")?;
    put_signs(text, one)?;
    put(text, b"\"")
}

/// Puts texts as an array of strings of JSON behind the text.
pub fn put_strings(text: &mut List<u8>, all: &[List<u8>]) -> Result<(), NoMemory>
    ensures { OnOk result (text.new ≡ text.old ++ strings_text all.now) }
{
    match all.split_first() {
        None => put(text, b"[]"),
        Some((first, rest)) => put_some(text, first.as_slice(), rest),
    }
}

/// Puts an array of one text and more behind the text.
fn put_some(text: &mut List<u8>, first: &[u8], rest: &[List<u8>]) -> Result<(), NoMemory>
    ensures { OnOk result (text.new ≡ text.old ++ strings_text (first.now ∷ rest.now)) }
{
    put(text, b"[")?;
    put_string(text, first)?;
    put_later(text, rest)?;
    put(text, b"]")
}

fn put_later(text: &mut List<u8>, rest: &[List<u8>]) -> Result<(), NoMemory>
    ensures { OnOk result (text.new ≡ text.old ++ flat_map later_text rest.now) }
{
    for one in rest {
        put(text, b",")?;
        put_string(text, one.as_slice())?;
    }
    Ok(())
}

fn put_signs(text: &mut List<u8>, signs: &[u8]) -> Result<(), NoMemory>
    ensures { OnOk result (text.new ≡ text.old ++ flat_map sign_text signs.now) }
{
    for sign in signs {
        put_escaped(text, plain_sign(*sign))?;
    }
    Ok(())
}

fn plain_sign(sign: u8) -> u8
    ensures { result ≡ plain_sign sign }
{
    if 127 < sign { b'?' } else { sign }
}

fn put_escaped(text: &mut List<u8>, sign: u8) -> Result<(), NoMemory>
    ensures { OnOk result (text.new ≡ text.old ++ escape_byte sign) }
{
    let letter = escape_letter(sign);
    if 0 < letter {
        put(text, &[b'\\', letter])
    } else if sign < 32 {
        let (first, second) = (digit(sign / 16), digit(sign % 16));
        put(text, &[b'\\', b'u', b'0', b'0', first, second])
    } else {
        text.push(sign)
    }
}

/// The letter that stands behind a backslash for this sign; 0 where there is none.
fn escape_letter(sign: u8) -> u8
    ensures { result ≡ escape_letter sign }
{
    match sign {
        b'"' => b'"',
        b'\\' => b'\\',
        b'\t' => b't',
        b'\n' => b'n',
        b'\r' => b'r',
        8 => b'b',
        12 => b'f',
        _ => 0,
    }
}

fn digit(value: u8) -> u8
    requires { value < 16 }
    ensures { result ≡ digit_char value }
{
    if value < 10 { 48 + value } else { 87 + value }
}
