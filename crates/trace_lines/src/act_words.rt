ghost use Rattle.std.specs.Prelude.{◌≡◌, ◌++◌, OnOk};
ghost use Rattle.trace_lines.specs.ActWords.{act_name_text, act_text, deed_named_text, take_text};

use crate::finding::ActName;
use crate::message_names::put_of;
use crate::names::{process_name, terminal_name};
use gd_words::{List, NoMemory};
use tal_tree::{Site, Who};
use text_pieces::put;

/// Puts what becomes of an act, and the act, behind the text.
pub(crate) fn put_act(
    text: &mut List<u8>,
    site: &Site,
    deed: &[u8],
    act: ActName,
) -> Result<(), NoMemory>
    ensures { OnOk result (text.new ≡ text.old ++ act_text site.now deed.now act) }
{
    put(text, deed)?;
    put_act_name(text, site, act)
}

fn put_act_name(text: &mut List<u8>, site: &Site, act: ActName) -> Result<(), NoMemory>
    ensures { OnOk result (text.new ≡ text.old ++ act_name_text site.now act) }
{
    match act {
        ActName::Step(process) => put_deed_named(text, b"step ", process_name(site, process)),
        ActName::Take { process, asker } => put_take(text, site, process, asker),
        ActName::Enter(terminal) => {
            put_deed_named(text, b"enter ", terminal_name(site, terminal))
        }
        ActName::Print(terminal) => {
            put_deed_named(text, b"print ", terminal_name(site, terminal))
        }
    }
}

fn put_deed_named(text: &mut List<u8>, deed: &[u8], name: &[u8]) -> Result<(), NoMemory>
    ensures { OnOk result (text.new ≡ text.old ++ deed_named_text deed.now name.now) }
{
    put(text, deed)?;
    put(text, name)
}

fn put_take(
    text: &mut List<u8>,
    site: &Site,
    process: u8,
    asker: Option<Who>,
) -> Result<(), NoMemory>
    ensures { OnOk result (text.new ≡ text.old ++ take_text site.now process asker) }
{
    put(text, b"take ")?;
    put(text, process_name(site, process))?;
    put_of(text, site, asker)
}
