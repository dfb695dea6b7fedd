ghost use Rattle.std.specs.Prelude.{◌≡◌, ◌++◌, [], ◌∷◌, IfOk, OnOk, map};
ghost use Rattle.trace_lines.specs.EventLine.{event_text};
ghost use Rattle.trace_lines.specs.FindingWords.{found_text};
ghost use Rattle.trace_lines.specs.ShownWords.{showing_text};
ghost use Rattle.trace_forms.specs.Forms.{event_value, json_line, line_in, texts_told, value_text};
ghost use Rattle.trace_forms.specs.Pieces.{object_head, object_pieces};

use crate::form::Form;
use gd_words::{List, NoMemory};
use json_lines::{put_string, put_strings};
use schedule::Event;
use std::alloc::Global;
use tal_tree::{Shown, Site};
use text_pieces::{put, put_number};
use trace_lines::{EventTold, Finding, Places, put_event, put_event_name, put_found, put_showing};

/// Puts the line of an event in this form behind the text.
pub fn put_line(
    alloc: Global,
    text: &mut List<u8>,
    form: Form,
    site: &Site,
    places: &Places,
    told: EventTold,
) -> Result<(), NoMemory>
    ensures { OnOk result (text.new ≡ text.old ++ line_in form site.now places.now told.entry.number told.entry.event
        told.entry.findings.now told.entry.shown.now) }
{
    match form {
        Form::Text => put_event(text, site, places, told),
        Form::Json => put_json(alloc, text, site, places, told),
    }
}

fn put_json(
    alloc: Global,
    text: &mut List<u8>,
    site: &Site,
    places: &Places,
    told: EventTold,
) -> Result<(), NoMemory>
    ensures { OnOk result (text.new ≡ text.old ++ json_line site.now places.now told.entry.number told.entry.event
        told.entry.findings.now told.entry.shown.now) }
{
    let event = event_name(alloc, site, told.event)?;
    let findings = texts_told(alloc, site, places, told.findings, told.shown)?;
    put_object(text, told.number, event.as_slice(), findings.as_slice())
}

/// Puts the object of an event and a line feed behind the text.
fn put_object(
    text: &mut List<u8>,
    number: u64,
    event: &[u8],
    findings: &[List<u8>],
) -> Result<(), NoMemory>
    ensures { OnOk result (text.new
        ≡ text.old ++ (value_text (event_value number event.now findings.now) ++ 10 ∷ [])) }
{
    put_pieces(text, number, event, findings)
}

fn put_pieces(
    text: &mut List<u8>,
    number: u64,
    event: &[u8],
    findings: &[List<u8>],
) -> Result<(), NoMemory>
    ensures { OnOk result (text.new ≡ text.old ++ (object_pieces number event.now findings.now ++ 10 ∷ [])) }
{
    put_head(text, number, event)?;
    put(text, b",\"findings\":")?;
    put_strings(text, findings)?;
    put(text, b"}")?;
    put(text, b"\n")
}

fn put_head(text: &mut List<u8>, number: u64, event: &[u8]) -> Result<(), NoMemory>
    ensures { OnOk result (text.new ≡ text.old ++ object_head number event.now) }
{
    put(text, b"{\"number\":")?;
    put_number(text, number)?;
    put(text, b",\"event\":")?;
    put_string(text, event)
}

/// An event as a line of a schedule asks for it.
fn event_name(alloc: Global, site: &Site, event: Event) -> Result<List<u8>, NoMemory>
    ensures { IfOk result (λ name. name ≡ event_text site.now event) }
{
    let mut name = List::new(alloc);
    put_event_name(&mut name, site, event)?;
    Ok(name)
}

/// What an event did and what it showed, each as a text of its own.
fn texts_told(
    alloc: Global,
    site: &Site,
    places: &Places,
    findings: &[Finding],
    shown: &[Shown],
) -> Result<List<List<u8>>, NoMemory>
    ensures { IfOk result (λ texts. texts ≡ texts_told site.now places.now findings.now shown.now) }
{
    let mut texts = texts_found(alloc, site, places, findings)?;
    add_shown(alloc, &mut texts, site, shown)?;
    Ok(texts)
}

fn texts_found(
    alloc: Global,
    site: &Site,
    places: &Places,
    findings: &[Finding],
) -> Result<List<List<u8>>, NoMemory>
    ensures { IfOk result (λ texts. texts ≡ map (found_text site.now places.now) findings.now) }
{
    let mut texts = List::new(alloc);
    for finding in findings {
        let mut text = List::new(alloc);
        put_found(&mut text, site, places, *finding)?;
        texts.push(text)?;
    }
    Ok(texts)
}

fn add_shown(
    alloc: Global,
    texts: &mut List<List<u8>>,
    site: &Site,
    shown: &[Shown],
) -> Result<(), NoMemory>
    ensures { OnOk result (texts.new ≡ texts.old ++ map (showing_text site.now) shown.now) }
{
    for one in shown {
        let mut text = List::new(alloc);
        put_showing(&mut text, site, one)?;
        texts.push(text)?;
    }
    Ok(())
}
