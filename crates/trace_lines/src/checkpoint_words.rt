ghost use Rattle.std.specs.Prelude.{◌≡◌, ◌++◌, OnOk};
ghost use Rattle.trace_lines.specs.CheckpointWords.{copy_text, copy_with_text, hears_taken_text, ignores_text};
ghost use Rattle.trace_lines.specs.CheckpointWords.{why_text};

use crate::finding::WhyIgnored;
use crate::names::put_numbered;
use gd_words::{List, NoMemory};
use text_pieces::put;

/// Puts that a copy ignored a checkpoint, and why, behind the text.
pub(crate) fn put_ignores(
    text: &mut List<u8>,
    name: &[u8],
    processor: u8,
    number: u32,
    why: WhyIgnored,
) -> Result<(), NoMemory>
    ensures { OnOk result (text.new ≡ text.old ++ ignores_text name.now processor number why) }
{
    put_copy_with(text, name, processor, b" ignores checkpoint ", number)?;
    put(text, why_text(why))
}

fn why_text(why: WhyIgnored) -> &'static [u8]
    ensures { result.now ≡ why_text why }
{
    match why {
        WhyIgnored::Acts => b": it acts itself",
        WhyIgnored::OtherEra => b": that is of another era",
        WhyIgnored::NotNext => b": that isn't the next one",
    }
}

/// Puts that a copy heard that its checkpoint was taken behind the text.
pub(crate) fn put_hears_taken(
    text: &mut List<u8>,
    name: &[u8],
    processor: u8,
    number: u32,
) -> Result<(), NoMemory>
    ensures { OnOk result (text.new ≡ text.old ++ hears_taken_text name.now processor number) }
{
    put_copy_with(text, name, processor, b" hears of its checkpoint ", number)?;
    put(text, b" that it was taken")
}

/// Puts the copy of a process in a processor, with what is told of it and a number.
fn put_copy_with(
    text: &mut List<u8>,
    name: &[u8],
    processor: u8,
    deed: &[u8],
    number: u32,
) -> Result<(), NoMemory>
    ensures { OnOk result (text.new ≡ text.old ++ copy_with_text name.now processor deed.now number) }
{
    put_copy(text, name, processor)?;
    put_numbered(text, deed, u64::from(number), b"")
}

fn put_copy(text: &mut List<u8>, name: &[u8], processor: u8) -> Result<(), NoMemory>
    ensures { OnOk result (text.new ≡ text.old ++ copy_text name.now processor) }
{
    put(text, name)?;
    put_numbered(text, b" in processor ", u64::from(processor), b"")
}
