ghost use Rattle.std.specs.Prelude.{◌≡◌, ◌++◌, OnOk};
ghost use Rattle.break_text.specs.BreakText.{asked_text, search_text, tried_text, unbroken_text};

use crate::broken::put_break;
use break_runs::{Search, runs_of};
use gd_words::{List, NoMemory};
use std::alloc::Global;
use tal_tree::Site;
use text_pieces::{put, put_number};

/// Puts what came of a search behind the text.
pub fn put_search(
    alloc: Global,
    text: &mut List<u8>,
    site: &Site,
    search: &Search,
) -> Result<(), NoMemory>
    ensures { OnOk result (text.new ≡ text.old ++ search_text site.now search.now) }
{
    match &search.found {
        None => put_unbroken(text, site, search.asked, search.places),
        Some(found) => put_break(alloc, text, site, found),
    }
}

/// Puts how many runs were tried, of which none goes wrong, behind the text.
fn put_unbroken(text: &mut List<u8>, site: &Site, asked: u64, places: u32) -> Result<(), NoMemory>
    ensures { OnOk result (text.new ≡ text.old ++ unbroken_text site.now asked places) }
{
    put_tried(text, runs_of(site.processors, places))?;
    put_asked(text, asked, places)?;
    put(
        text,
        b"  the checker looks at paths and not at values: a refused program may never go wrong\n",
    )
}

fn put_tried(text: &mut List<u8>, runs: u64) -> Result<(), NoMemory>
    ensures { OnOk result (text.new ≡ text.old ++ tried_text runs) }
{
    put(text, b"no run breaks of those that were tried: ")?;
    put_number(text, runs)?;
    put(text, b"\n")
}

fn put_asked(text: &mut List<u8>, asked: u64, places: u32) -> Result<(), NoMemory>
    ensures { OnOk result (text.new ≡ text.old ++ asked_text asked places) }
{
    put(
        text,
        b"  with each processor stopped before each of the first ",
    )?;
    put_number(text, u64::from(places))?;
    put(text, b" events; the run with no stop asks for ")?;
    put_number(text, asked)?;
    put(text, b"\n")
}
