ghost use Rattle.std.specs.Prelude.{◌≡◌, ◌++◌, flat_map, OnOk};
ghost use Rattle.trace_lines.specs.MessageNames.{again_text, any_message_text, asked_text, asker_name, behind_text};
ghost use Rattle.trace_lines.specs.MessageNames.{checkpoint_text, last_text, member_text, message_text, of_asker_text};
ghost use Rattle.trace_lines.specs.MessageNames.{packet_of_text, reply_text, report_text, request_text, sends_text};
ghost use Rattle.trace_lines.specs.MessageNames.{has_none, reports_text, silent_text, taken_text};

use crate::finding::{Fate, MessageName, PacketSight};
use crate::names::{process_name, put_numbered, terminal_name};
use crate::packet_fates::{put_nodes, put_packet};
use alive_regroup::ProcessorSet;
use gd_words::{List, NoMemory};
use tal_tree::{Site, Who};
use text_pieces::put;

/// The numbers of processors.
const PLACES: [u8; 16] = [0, 1, 2, 3, 4, 5, 6, 7, 8, 9, 10, 11, 12, 13, 14, 15];

/// Puts a packet with its fate, and the message of which it is a piece, behind the text.
pub(crate) fn put_packet_of(
    text: &mut List<u8>,
    site: &Site,
    packet: PacketSight,
    fate: Fate,
    message: Option<MessageName>,
) -> Result<(), NoMemory>
    ensures { OnOk result (text.new ≡ text.old ++ packet_of_text site.now packet fate message) }
{
    put_packet(text, packet, fate)?;
    put_behind(text, site, message)
}

/// Puts that a node sent a message behind the text.
pub(crate) fn put_sends(
    text: &mut List<u8>,
    site: &Site,
    sender: u8,
    receiver: u8,
    last: u32,
    message: Option<MessageName>,
    again: bool,
) -> Result<(), NoMemory>
    ensures { OnOk result (text.new ≡ text.old ++ sends_text site.now sender receiver last message again) }
{
    put(text, b"sends ")?;
    put_any_message(text, site, message)?;
    put(text, again_text(again))?;
    put_last(text, last, sender, receiver)
}

fn again_text(again: bool) -> &'static [u8]
    ensures { result.now ≡ again_text again }
{
    if again { b" again" } else { b"" }
}

fn put_last(text: &mut List<u8>, last: u32, sender: u8, receiver: u8) -> Result<(), NoMemory>
    ensures { OnOk result (text.new ≡ text.old ++ last_text last sender receiver) }
{
    put_numbered(text, b", last piece ", u64::from(last), b"")?;
    put_nodes(text, sender, receiver)
}

fn put_behind(
    text: &mut List<u8>,
    site: &Site,
    message: Option<MessageName>,
) -> Result<(), NoMemory>
    ensures { OnOk result (text.new ≡ text.old ++ behind_text site.now message) }
{
    match message {
        None => Ok(()),
        Some(message) => {
            put(text, b": ")?;
            put_message(text, site, message)
        }
    }
}

fn put_any_message(
    text: &mut List<u8>,
    site: &Site,
    message: Option<MessageName>,
) -> Result<(), NoMemory>
    ensures { OnOk result (text.new ≡ text.old ++ any_message_text site.now message) }
{
    match message {
        None => put(text, b"a message"),
        Some(message) => put_message(text, site, message),
    }
}

/// Puts which message it is behind the text.
fn put_message(text: &mut List<u8>, site: &Site, message: MessageName) -> Result<(), NoMemory>
    ensures { OnOk result (text.new ≡ text.old ++ message_text site.now message) }
{
    match message {
        MessageName::Request {
            asker,
            process,
            number,
        } => put_request(text, site, asker, process, number),
        MessageName::Reply {
            asker,
            process,
            number,
        } => put_reply(text, site, asker, process, number),
        MessageName::Checkpoint {
            process,
            era: _,
            number,
        } => put_checkpoint(text, site, process, number),
        MessageName::Taken {
            process,
            era: _,
            number,
        } => put_taken(text, site, process, number),
        MessageName::Report { node, silent } => put_report(text, node, silent),
        MessageName::Down(processor) => put_numbered(
            text,
            b"that processor ",
            u64::from(processor),
            b" is down",
        ),
    }
}

fn put_request(
    text: &mut List<u8>,
    site: &Site,
    asker: Option<Who>,
    process: u8,
    number: u32,
) -> Result<(), NoMemory>
    ensures { OnOk result (text.new ≡ text.old ++ request_text site.now asker process number) }
{
    put_asked(text, site, asker, number)?;
    put(text, b" to ")?;
    put(text, process_name(site, process))
}

fn put_reply(
    text: &mut List<u8>,
    site: &Site,
    asker: Option<Who>,
    process: u8,
    number: u32,
) -> Result<(), NoMemory>
    ensures { OnOk result (text.new ≡ text.old ++ reply_text site.now asker process number) }
{
    put(text, b"reply of ")?;
    put(text, process_name(site, process))?;
    put(text, b" to ")?;
    put_asked(text, site, asker, number)
}

/// Puts a request's number and who asks.
fn put_asked(
    text: &mut List<u8>,
    site: &Site,
    asker: Option<Who>,
    number: u32,
) -> Result<(), NoMemory>
    ensures { OnOk result (text.new ≡ text.old ++ asked_text site.now asker number) }
{
    put_numbered(text, b"request ", u64::from(number), b"")?;
    put_of(text, site, asker)
}

/// Puts who asks, if that is known, behind the text.
pub(crate) fn put_of(text: &mut List<u8>, site: &Site, asker: Option<Who>) -> Result<(), NoMemory>
    ensures { OnOk result (text.new ≡ text.old ++ of_asker_text site.now asker) }
{
    match asker {
        None => Ok(()),
        Some(asker) => {
            put(text, b" of ")?;
            put(text, asker_name(site, asker))
        }
    }
}

/// The name of who asks: of the process of a file, or of a terminal.
fn asker_name(site: &Site, asker: Who) -> &[u8]
    ensures { result.now ≡ asker_name site.now asker }
{
    match asker {
        Who::File { process, file: _ } => process_name(site, process),
        Who::Terminal(terminal) => terminal_name(site, terminal),
    }
}

fn put_checkpoint(
    text: &mut List<u8>,
    site: &Site,
    process: u8,
    number: u32,
) -> Result<(), NoMemory>
    ensures { OnOk result (text.new ≡ text.old ++ checkpoint_text site.now process number) }
{
    put_numbered(text, b"checkpoint ", u64::from(number), b" of ")?;
    put(text, process_name(site, process))
}

fn put_taken(text: &mut List<u8>, site: &Site, process: u8, number: u32) -> Result<(), NoMemory>
    ensures { OnOk result (text.new ≡ text.old ++ taken_text site.now process number) }
{
    put(text, b"that ")?;
    put_checkpoint(text, site, process, number)?;
    put(text, b" was taken")
}

fn put_report(text: &mut List<u8>, node: u8, silent: ProcessorSet) -> Result<(), NoMemory>
    ensures { OnOk result (text.new ≡ text.old ++ report_text node silent) }
{
    put_numbered(text, b"report of node ", u64::from(node), b", silent:")?;
    put_silent(text, silent)
}

/// Puts which processors a node reports as silent behind the text.
pub(crate) fn put_reports(
    text: &mut List<u8>,
    node: u8,
    silent: ProcessorSet,
) -> Result<(), NoMemory>
    ensures { OnOk result (text.new ≡ text.old ++ reports_text node silent) }
{
    put_numbered(text, b"node ", u64::from(node), b" reports, silent:")?;
    put_silent(text, silent)
}

/// Puts the processors that are silent, by their numbers.
fn put_silent(text: &mut List<u8>, silent: ProcessorSet) -> Result<(), NoMemory>
    ensures { OnOk result (text.new ≡ text.old ++ silent_text silent) }
{
    if has_none(silent) {
        put(text, b" none")
    } else {
        put_members(text, silent, PLACES.as_slice())
    }
}

fn has_none(silent: ProcessorSet) -> bool
    ensures { result ≡ has_none silent }
{
    silent.members.iter().all(|one| !*one)
}

fn put_members(text: &mut List<u8>, silent: ProcessorSet, processors: &[u8]) -> Result<(), NoMemory>
    ensures { OnOk result (text.new ≡ text.old ++ flat_map (member_text silent) processors.now) }
{
    for processor in processors {
        put_member(text, silent, *processor)?;
    }
    Ok(())
}

fn put_member(text: &mut List<u8>, silent: ProcessorSet, processor: u8) -> Result<(), NoMemory>
    ensures { OnOk result (text.new ≡ text.old ++ member_text silent processor) }
{
    if silent.has(processor) {
        put_numbered(text, b" ", u64::from(processor), b"")
    } else {
        Ok(())
    }
}
