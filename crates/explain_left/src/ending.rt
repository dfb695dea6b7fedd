ghost use Rattle.std.specs.Prelude.{◌≡◌, ◌++◌, OnOk};
ghost use Rattle.explain_left.specs.LeftRuns.{ending_text, lost_text, name_of, second_text};

use gd_words::{List, NoMemory};
use schedule_loop::Ending;
use tal_tree::Site;
use text_pieces::{put, put_number};

/// Puts how a run ended behind the text.
pub(crate) fn put_ending(text: &mut List<u8>, site: &Site, ending: Ending) -> Result<(), NoMemory>
    ensures { OnOk result (text.new ≡ text.old ++ ending_text site.now ending) }
{
    match ending {
        Ending::Idle => put(text, b"the run ended idle\n"),
        Ending::Cut => put(text, b"the run was cut\n"),
        Ending::Second(processor) => put_second(text, processor),
        Ending::Lost(process) => put_lost(text, site, process),
    }
}

fn put_second(text: &mut List<u8>, processor: u8) -> Result<(), NoMemory>
    ensures { OnOk result (text.new ≡ text.old ++ second_text processor) }
{
    put(text, b"the run ended before a second stop, of processor ")?;
    put_number(text, u64::from(processor))?;
    put(text, b"\n")
}

fn put_lost(text: &mut List<u8>, site: &Site, process: u8) -> Result<(), NoMemory>
    ensures { OnOk result (text.new ≡ text.old ++ lost_text site.now process) }
{
    put(text, b"the run ended before the last drive of ")?;
    put(text, name_of(site, process))?;
    put(text, b" would have failed\n")
}

/// The name of a process, empty where it isn't there.
fn name_of(site: &Site, process: u8) -> &[u8]
    ensures { result.now ≡ name_of site.now process }
{
    match site.processes.get(usize::from(process)) {
        Some(spec) => spec.name.text(),
        None => &[],
    }
}
