ghost use Rattle.std.specs.Prelude.{◌≡◌, ◌++◌, flat_map, OnOk};
ghost use Rattle.left_text.specs.LeftText.{each_other_text, itself_text, other_text, ring_text};

use crate::process_ends::name_at;
use gd_words::{List, NoMemory};
use tal_tree::ProcessSpec;
use text_pieces::put;

/// Puts a line for each ring behind the text.
pub(crate) fn put_rings(
    text: &mut List<u8>,
    all: &[ProcessSpec],
    rings: &[List<usize>],
) -> Result<(), NoMemory>
    ensures { OnOk result (text.new ≡ text.old ++ flat_map (ring_text all.now) rings.now) }
{
    for ring in rings {
        put_ring(text, all, ring.as_slice())?;
    }
    Ok(())
}

fn put_ring(text: &mut List<u8>, all: &[ProcessSpec], ring: &[usize]) -> Result<(), NoMemory>
    ensures { OnOk result (text.new ≡ text.old ++ ring_text all.now ring.now) }
{
    match ring {
        [] => Ok(()),
        [one] => put_itself(text, name_at(all, *one)),
        [first, others @ ..] => put_each_other(text, all, *first, others),
    }
}

fn put_itself(text: &mut List<u8>, name: &[u8]) -> Result<(), NoMemory>
    ensures { OnOk result (text.new ≡ text.old ++ itself_text name.now) }
{
    put(text, name)?;
    put(text, b" waits for itself\n")
}

fn put_each_other(
    text: &mut List<u8>,
    all: &[ProcessSpec],
    first: usize,
    others: &[usize],
) -> Result<(), NoMemory>
    ensures { OnOk result (text.new ≡ text.old ++ each_other_text all.now first others.now) }
{
    put(text, name_at(all, first))?;
    put_others(text, all, others)?;
    put(
        text,
        b" wait for each other: each for a reply of the next, the last for one of the first\n",
    )
}

fn put_others(text: &mut List<u8>, all: &[ProcessSpec], others: &[usize]) -> Result<(), NoMemory>
    ensures { OnOk result (text.new ≡ text.old ++ flat_map (other_text all.now) others.now) }
{
    for other in others {
        put_other(text, all, *other)?;
    }
    Ok(())
}

fn put_other(text: &mut List<u8>, all: &[ProcessSpec], other: usize) -> Result<(), NoMemory>
    ensures { OnOk result (text.new ≡ text.old ++ other_text all.now other) }
{
    put(text, b", ")?;
    put(text, name_at(all, other))
}
