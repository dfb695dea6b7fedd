ghost use Rattle.std.specs.Prelude.{◌≡◌, ◌++◌, OnOk};
ghost use Rattle.trace_lines.specs.EventLine.{bus_text, deed_text, drive_event_text, event_line, event_text};
ghost use Rattle.trace_lines.specs.EventLine.{named_text, packet_place_text};

use crate::finding::Finding;
use crate::finding_words::put_findings;
use crate::names::{process_name, put_numbered, terminal_name};
use crate::places::Places;
use crate::shown_words::put_all_shown;
use gd_words::{List, NoMemory};
use schedule::{BusName, DriveChange, DriveEvent, Event};
use tal_tree::{Shown, Site};
use text_pieces::put;

/// What is told of an event: its number from 1, what it did, and what it showed.
#[derive(Clone, Copy)]
pub struct EventTold<'a> {
    pub number: u64,
    pub event: Event,
    pub findings: &'a [Finding],
    pub shown: &'a [Shown],
}

/// Puts the line of an event behind the text.
pub fn put_event(
    text: &mut List<u8>,
    site: &Site,
    places: &Places,
    told: EventTold,
) -> Result<(), NoMemory>
    ensures { OnOk result (text.new ≡ text.old ++ event_line site.now places.now told.entry.number told.entry.event
        told.entry.findings.now told.entry.shown.now) }
{
    put_numbered(text, b"", told.number, b" ")?;
    put_event_name(text, site, told.event)?;
    put_findings(text, site, places, told.findings)?;
    put_all_shown(text, site, told.shown)?;
    put(text, b"\n")
}

/// Puts an event as a line of a schedule asks for it.
pub fn put_event_name(text: &mut List<u8>, site: &Site, event: Event) -> Result<(), NoMemory>
    ensures { OnOk result (text.new ≡ text.old ++ event_text site.now event) }
{
    match event {
        Event::Run(process) => put_named(text, b"run ", process_name(site, process)),
        Event::Enter(terminal) => put_named(text, b"enter ", terminal_name(site, terminal)),
        Event::Deliver { bus, k } => put_packet_place(text, b"deliver ", bus, k),
        Event::Lose { bus, k } => put_packet_place(text, b"lose ", bus, k),
        Event::Repeat { bus, k } => put_packet_place(text, b"repeat ", bus, k),
        Event::Tick(node) => put_numbered(text, b"tick ", u64::from(node), b""),
        Event::Fail(processor) => put_numbered(text, b"fail ", u64::from(processor), b""),
        Event::Reload(processor) => put_numbered(text, b"reload ", u64::from(processor), b""),
        Event::Drive(one) => put_drive_event(text, process_name(site, one.process), one),
    }
}

fn put_named(text: &mut List<u8>, deed: &[u8], name: &[u8]) -> Result<(), NoMemory>
    ensures { OnOk result (text.new ≡ text.old ++ named_text deed.now name.now) }
{
    put(text, deed)?;
    put(text, name)
}

fn put_packet_place(text: &mut List<u8>, deed: &[u8], bus: BusName, k: u32) -> Result<(), NoMemory>
    ensures { OnOk result (text.new ≡ text.old ++ packet_place_text deed.now bus k) }
{
    put(text, deed)?;
    put_numbered(text, bus_text(bus), u64::from(k), b"")
}

fn bus_text(bus: BusName) -> &'static [u8]
    ensures { result.now ≡ bus_text bus }
{
    match bus {
        BusName::X => b"x ",
        BusName::Y => b"y ",
    }
}

fn put_drive_event(text: &mut List<u8>, name: &[u8], one: DriveEvent) -> Result<(), NoMemory>
    ensures { OnOk result (text.new ≡ text.old ++ drive_event_text name.now one) }
{
    put(text, deed_text(one.change))?;
    put(text, name)?;
    put_numbered(text, b" ", u64::from(one.drive), b"")
}

fn deed_text(change: DriveChange) -> &'static [u8]
    ensures { result.now ≡ deed_text change }
{
    match change {
        DriveChange::Break => b"break ",
        DriveChange::Revive => b"revive ",
        DriveChange::Copy => b"copy ",
    }
}
