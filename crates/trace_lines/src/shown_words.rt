ghost use Rattle.std.specs.Prelude.{◌≡◌, ◌++◌, flat_map, OnOk};
ghost use Rattle.trace_lines.specs.ShownWords.{seen_text, showing_text, shown_text, word_text, words_text};

use crate::names::{process_name, put_numbered, terminal_name};
use gd_words::{List, NoMemory, decimal_of};
use tal_tree::{Shown, Site};
use text_pieces::put;

/// Puts all that an event showed behind the text, each behind a bar.
pub(crate) fn put_all_shown(
    text: &mut List<u8>,
    site: &Site,
    shown: &[Shown],
) -> Result<(), NoMemory>
    ensures { OnOk result (text.new ≡ text.old ++ flat_map (shown_text site.now) shown.now) }
{
    for one in shown {
        put_one_shown(text, site, one)?;
    }
    Ok(())
}

fn put_one_shown(text: &mut List<u8>, site: &Site, shown: &Shown) -> Result<(), NoMemory>
    ensures { OnOk result (text.new ≡ text.old ++ shown_text site.now shown.now) }
{
    put(text, b" | ")?;
    put_showing(text, site, shown)
}

/// Puts one thing that an event showed behind the text.
pub fn put_showing(text: &mut List<u8>, site: &Site, shown: &Shown) -> Result<(), NoMemory>
    ensures { OnOk result (text.new ≡ text.old ++ showing_text site.now shown.now) }
{
    match shown {
        Shown::Write {
            process,
            sector,
            words,
        } => put_seen(
            text,
            process_name(site, *process),
            b" writes sector ",
            u64::from(*sector),
            words,
        ),
        Shown::Reply {
            terminal,
            number,
            words,
        } => put_seen(
            text,
            terminal_name(site, *terminal),
            b" prints reply ",
            u64::from(*number),
            words.as_slice(),
        ),
    }
}

/// Puts who shows something, what it is with its number, and its words.
fn put_seen(
    text: &mut List<u8>,
    name: &[u8],
    deed: &[u8],
    number: u64,
    words: &[i16],
) -> Result<(), NoMemory>
    ensures { OnOk result (text.new ≡ text.old ++ seen_text name.now deed.now number words.now) }
{
    put(text, name)?;
    put_numbered(text, deed, number, b":")?;
    put_words(text, words)
}

fn put_words(text: &mut List<u8>, words: &[i16]) -> Result<(), NoMemory>
    ensures { OnOk result (text.new ≡ text.old ++ words_text words.now) }
{
    for word in words {
        put_word(text, *word)?;
    }
    Ok(())
}

fn put_word(text: &mut List<u8>, word: i16) -> Result<(), NoMemory>
    ensures { OnOk result (text.new ≡ text.old ++ word_text word) }
{
    put(text, b" ")?;
    put(text, decimal_of(i64::from(word)).bytes())
}
