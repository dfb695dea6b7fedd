ghost use Rattle.std.specs.Prelude.{◌≡◌, ◌++◌, OnOk};
ghost use Rattle.break_text.specs.BreakText.{agreed_text, apart_if, apart_text, unlike_text};

use crate::lines::put_line;
use break_runs::Apart;
use gd_words::{List, NoMemory};
use std::alloc::Global;
use tal_tree::Site;
use text_pieces::{put, put_number};

/// Puts where the run differs from unfailing processes behind the text, if it does.
pub(crate) fn put_apart_if(
    alloc: Global,
    text: &mut List<u8>,
    site: &Site,
    apart: &Option<Apart>,
) -> Result<(), NoMemory>
    ensures { OnOk result (text.new ≡ text.old ++ apart_if site.now apart.now) }
{
    match apart {
        None => Ok(()),
        Some(apart) => put_apart(alloc, text, site, apart),
    }
}

/// Puts where the run differs from unfailing processes that do its acts behind the text.
pub(crate) fn put_apart(
    alloc: Global,
    text: &mut List<u8>,
    site: &Site,
    apart: &Apart,
) -> Result<(), NoMemory>
    ensures { OnOk result (text.new ≡ text.old ++ apart_text site.now apart.now) }
{
    put_agreed(text, apart.before as u64)?;
    put_unlike(alloc, text, site, apart)
}

fn put_agreed(text: &mut List<u8>, before: u64) -> Result<(), NoMemory>
    ensures { OnOk result (text.new ≡ text.old ++ agreed_text before) }
{
    put(text, b"  lines that unfailing processes show too: ")?;
    put_number(text, before)?;
    put(text, b"\n")
}

fn put_unlike(
    alloc: Global,
    text: &mut List<u8>,
    site: &Site,
    apart: &Apart,
) -> Result<(), NoMemory>
    ensures { OnOk result (text.new ≡ text.old ++ unlike_text site.now apart.now) }
{
    put(text, b"  then this run shows:      ")?;
    put_line(alloc, text, site, &apart.shown)?;
    put(text, b"  unfailing processes show: ")?;
    put_line(alloc, text, site, &apart.due)
}
