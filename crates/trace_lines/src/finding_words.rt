ghost use Rattle.std.specs.Prelude.{◌≡◌, ◌++◌, flat_map, OnOk};
ghost use Rattle.trace_lines.specs.FindingWords.{applies_text, disc_text, drive_text, finding_text, found_text};
ghost use Rattle.trace_lines.specs.FindingWords.{from_text, loses_text, marks_text, still_text, takes_over_text};
ghost use Rattle.trace_lines.specs.FindingWords.{waits_text};

use crate::act_words::put_act;
use crate::checkpoint_words::{put_hears_taken, put_ignores};
use crate::finding::Finding;
use crate::message_names::{put_packet_of, put_reports, put_sends};
use crate::names::{process_name, put_numbered, put_pair};
use crate::places::Places;
use crate::set_words::put_set;
use crate::statements::put_statement;
use gd_words::{List, NoMemory};
use mirror::DriveState;
use process_semantics::Point;
use tal_tree::Site;
use text_pieces::put;

/// Puts all that an event did behind the text, each thing behind a bar.
pub(crate) fn put_findings(
    text: &mut List<u8>,
    site: &Site,
    places: &Places,
    findings: &[Finding],
) -> Result<(), NoMemory>
    ensures { OnOk result (text.new ≡ text.old ++ flat_map (finding_text site.now places.now) findings.now) }
{
    for finding in findings {
        put_finding(text, site, places, *finding)?;
    }
    Ok(())
}

fn put_finding(
    text: &mut List<u8>,
    site: &Site,
    places: &Places,
    finding: Finding,
) -> Result<(), NoMemory>
    ensures { OnOk result (text.new ≡ text.old ++ finding_text site.now places.now finding) }
{
    put(text, b" | ")?;
    put_found(text, site, places, finding)
}

/// Puts one thing that an event did behind the text.
pub fn put_found(
    text: &mut List<u8>,
    site: &Site,
    places: &Places,
    finding: Finding,
) -> Result<(), NoMemory>
    ensures { OnOk result (text.new ≡ text.old ++ found_text site.now places.now finding) }
{
    match finding {
        Finding::Skipped => put(text, b"skipped"),
        Finding::StandsStill(point) => put(text, still_text(point)),
        Finding::WouldStopSecond(processor) => put_numbered(
            text,
            b"processor ",
            u64::from(processor),
            b" would stop while another has, or a process has no backup: the run ends here",
        ),
        Finding::WouldLoseDisc(process) => put_loses(text, process_name(site, process)),
        Finding::Packet {
            packet,
            fate,
            message,
        } => put_packet_of(text, site, packet, fate, message),
        Finding::Sends {
            sender,
            receiver,
            last,
            message,
            again,
        } => put_sends(text, site, sender, receiver, last, message, again),
        Finding::Makes { process, statement } => put_statement(text, places, process, statement),
        Finding::Sets {
            process,
            item,
            place,
            value,
        } => put_set(text, site, process, item, place, value),
        Finding::DiscGoesOn(point) => put(text, disc_text(point)),
        Finding::SendsCheckpoint(_) => put(text, b"comes to its CHECKPOINT"),
        Finding::PassesCheckpoint => put(text, b"goes on behind its CHECKPOINT"),
        Finding::SendsEverything(_) => put(text, b"sends a checkpoint of all that it has"),
        Finding::EndsSending => put(text, b"goes on behind a checkpoint of all that it has"),
        Finding::AppliesCheckpoint {
            process,
            processor,
            number,
        } => put_applies(text, process_name(site, process), processor, number),
        Finding::IgnoresCheckpoint {
            process,
            processor,
            number,
            why,
        } => put_ignores(text, process_name(site, process), processor, number, why),
        Finding::HearsTaken {
            process,
            processor,
            number,
        } => put_hears_taken(text, process_name(site, process), processor, number),
        Finding::Waits {
            process,
            processor,
            number,
        } => put_waits(text, process_name(site, process), processor, number),
        Finding::TakesOver {
            process,
            processor,
            era,
            statement,
        } => {
            put_takes_over(text, process_name(site, process), processor, era)?;
            put_from(text, places, process, statement)
        }
        Finding::Keeps(act) => put_act(text, site, b"keeps ", act),
        Finding::HoldsBack(act) => put_act(text, site, b"holds back ", act),
        Finding::Stops(processor) => {
            put_numbered(text, b"processor ", u64::from(processor), b" stops")
        }
        Finding::Reloads(processor) => put_numbered(
            text,
            b"processor ",
            u64::from(processor),
            b" is loaded again",
        ),
        Finding::Marks { node, processor } => put_marks(text, node, processor),
        Finding::Misses { node, processor } => {
            put_pair(text, b"node ", node, b" misses processor ", processor)
        }
        Finding::FindsSilent { node, processor } => put_pair(
            text,
            b"processor ",
            processor,
            b" is silent to node ",
            node,
        ),
        Finding::Reports { node, silent } => put_reports(text, node, silent),
        Finding::PullsLine { node, processor } => put_pair(
            text,
            b"node ",
            node,
            b" pulls the hold line of processor ",
            processor,
        ),
        Finding::Enters(number) => put_numbered(text, b"enters request ", u64::from(number), b""),
        Finding::Drive(state) => put_drive(text, state),
    }
}

/// What the process of a disc does that stands here.
fn disc_text(point: Point) -> &'static [u8]
    ensures { result.now ≡ disc_text point }
{
    match point {
        Point::Take => b"takes a request",
        Point::Device => b"calls its device",
        Point::Answer => b"replies",
        Point::Inner => b"makes a step",
        Point::Ask => b"makes a step",
        Point::Await => b"makes a step",
        Point::AtCheckpoint => b"makes a step",
        Point::Ended => b"makes a step",
    }
}

/// For what a process waits that stands here.
fn still_text(point: Point) -> &'static [u8]
    ensures { result.now ≡ still_text point }
{
    match point {
        Point::Take => b"waits for a request",
        Point::Await => b"waits for a reply",
        Point::AtCheckpoint => b"waits until its checkpoint is acknowledged",
        Point::Ended => b"has ended",
        Point::Inner => b"stands still",
        Point::Ask => b"stands still",
        Point::Answer => b"stands still",
        Point::Device => b"stands still",
    }
}

fn put_applies(text: &mut List<u8>, name: &[u8], processor: u8, number: u32) -> Result<(), NoMemory>
    ensures { OnOk result (text.new ≡ text.old ++ applies_text name.now processor number) }
{
    put(text, name)?;
    put_numbered(text, b" in processor ", u64::from(processor), b"")?;
    put_numbered(text, b" puts checkpoint ", u64::from(number), b" in")
}

fn put_waits(text: &mut List<u8>, name: &[u8], processor: u8, number: u32) -> Result<(), NoMemory>
    ensures { OnOk result (text.new ≡ text.old ++ waits_text name.now processor number) }
{
    put(text, name)?;
    put_numbered(text, b" in processor ", u64::from(processor), b"")?;
    put_numbered(text, b" has request ", u64::from(number), b" waiting")
}

fn put_takes_over(text: &mut List<u8>, name: &[u8], processor: u8, era: u32) -> Result<(), NoMemory>
    ensures { OnOk result (text.new ≡ text.old ++ takes_over_text name.now processor era) }
{
    put(text, name)?;
    put_numbered(text, b" in processor ", u64::from(processor), b"")?;
    put_numbered(text, b" takes over, era ", u64::from(era), b"")
}

/// Puts from where a copy goes on that takes over, if that is known.
fn put_from(
    text: &mut List<u8>,
    places: &Places,
    process: u8,
    statement: Option<u16>,
) -> Result<(), NoMemory>
    ensures { OnOk result (text.new ≡ text.old ++ from_text places.now process statement) }
{
    match statement {
        None => Ok(()),
        Some(statement) => {
            put(text, b", from ")?;
            put_statement(text, places, process, statement)
        }
    }
}

fn put_marks(text: &mut List<u8>, node: u8, processor: u8) -> Result<(), NoMemory>
    ensures { OnOk result (text.new ≡ text.old ++ marks_text node processor) }
{
    put_numbered(text, b"node ", u64::from(node), b"")?;
    put_numbered(text, b" marks processor ", u64::from(processor), b"")
}

fn put_loses(text: &mut List<u8>, name: &[u8]) -> Result<(), NoMemory>
    ensures { OnOk result (text.new ≡ text.old ++ loses_text name.now) }
{
    put(text, b"the last drive of ")?;
    put(text, name)?;
    put(text, b" would fail: the run ends here")
}

/// Puts how a drive stands.
fn put_drive(text: &mut List<u8>, state: DriveState) -> Result<(), NoMemory>
    ensures { OnOk result (text.new ≡ text.old ++ drive_text state) }
{
    match state {
        DriveState::Working => put(text, b"the drive works"),
        DriveState::Failed => put(text, b"the drive has failed"),
        DriveState::Reviving(next) => put_numbered(
            text,
            b"the drive is being revived, next sector ",
            u64::from(next),
            b"",
        ),
    }
}
