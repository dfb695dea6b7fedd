//! What a line of a report tells.
ghost use Rattle.std.specs.Prelude.{◌≡◌};
ghost use Rattle.std.specs.Option.{option_map};
ghost use Rattle.plain_semantics.specs.SiteLimits.{KeepsSiteLimits};
ghost use Rattle.report_reader.specs.Names.{AreOpeners};
ghost use Rattle.report_reader.specs.Telling.{act_told, end_told, enter_told, has_sector, has_sectors, is_reply};
ghost use Rattle.report_reader.specs.Telling.{is_sector, is_shown, is_write_text, may_follow, next_told, parts_told};
ghost use Rattle.report_reader.specs.Telling.{print_told, processor_told, second_told, step_told, stop_told, take_told};
ghost use Rattle.report_reader.specs.Telling.{told_by};

use crate::names::{opener_named, process_named, terminal_named};
use crate::numbers::{number_told, word_count};
use crate::parts::{cut_at, rest_after};
use gd_words::List;
use gd_words::limits::MOST_MESSAGE_WORDS;
use tal_tree::{Act, Kind, OpenerSpec, Site};
use trace_print::End;

/// What a line of a report tells: something that is shown, what stands on a sector, a processor that has stopped, an
/// act, or the end.
#[derive(Clone, Copy, PartialEq, Eq)]
pub enum Told {
    Shown,
    Sector,
    Stop(u8),
    Act(Act),
    End(End),
}

/// What a line tells after one that told this, or as the first; none where it can't stand there.
pub(crate) fn next_told(
    site: &Site,
    lists: &[List<OpenerSpec>],
    before: Option<Told>,
    line: &[u8],
) -> Option<Told>
    requires limits { KeepsSiteLimits site.now }
    requires lists { AreOpeners site.now lists.now }
    ensures { result ≡ next_told site.now before line.now }
{
    let told = told_by(site, lists, line)?;
    if may_follow(before, told) {
        Some(told)
    } else {
        None
    }
}

/// Whether a line that tells this may stand after one that told the other, or as the first.
fn may_follow(before: Option<Told>, told: Told) -> bool
    ensures { result ≡ may_follow before told }
{
    match before {
        None => true,
        Some(Told::Shown) => true,
        Some(Told::Sector) => match told {
            Told::Shown => false,
            _ => true,
        },
        Some(Told::Stop(last)) => match told {
            Told::Shown => false,
            Told::Sector => false,
            Told::Stop(processor) => last < processor,
            _ => true,
        },
        Some(Told::Act(_)) => match told {
            Told::Act(_) => true,
            Told::End(_) => true,
            _ => false,
        },
        Some(Told::End(_)) => false,
    }
}

/// What a line tells, where it is written as reports write it and names what the site has.
fn told_by(site: &Site, lists: &[List<OpenerSpec>], line: &[u8]) -> Option<Told>
    requires limits { KeepsSiteLimits site.now }
    requires lists { AreOpeners site.now lists.now }
    ensures { result ≡ told_by site.now line.now }
{
    if let Some(act) = act_told(site, lists, line) {
        return Some(Told::Act(act));
    }
    if is_shown(site, line) {
        return Some(Told::Shown);
    }
    if is_sector(site, line) {
        return Some(Told::Sector);
    }
    if let Some(processor) = stop_told(site, line) {
        return Some(Told::Stop(processor));
    }
    let end = end_told(site, line)?;
    Some(Told::End(end))
}

/// An act.
fn act_told(site: &Site, lists: &[List<OpenerSpec>], line: &[u8]) -> Option<Act>
    requires limits { KeepsSiteLimits site.now }
    requires lists { AreOpeners site.now lists.now }
    ensures { result ≡ act_told site.now line.now }
{
    if let Some(act) = step_told(site, line) {
        return Some(act);
    }
    if let Some(act) = take_told(site, lists, line) {
        return Some(act);
    }
    if let Some(act) = enter_told(site, line) {
        return Some(act);
    }
    print_told(site, line)
}

fn step_told(site: &Site, line: &[u8]) -> Option<Act>
    requires { KeepsSiteLimits site.now }
    ensures { result ≡ step_told site.now line.now }
{
    let name = rest_after(b"A step ", line)?;
    let process = process_named(site, name)?;
    Some(Act::Step(process))
}

fn take_told(site: &Site, lists: &[List<OpenerSpec>], line: &[u8]) -> Option<Act>
    requires limits { KeepsSiteLimits site.now }
    requires lists { AreOpeners site.now lists.now }
    ensures { result ≡ take_told site.now line.now }
{
    let names = rest_after(b"A take ", line)?;
    let (server, asker) = cut_at(b' ', names)?;
    let process = process_named(site, server)?;
    let opener = opener_named(site, lists, process, asker)?;
    Some(Act::Take { process, opener })
}

fn enter_told(site: &Site, line: &[u8]) -> Option<Act>
    requires { KeepsSiteLimits site.now }
    ensures { result ≡ enter_told site.now line.now }
{
    let name = rest_after(b"A enter ", line)?;
    let terminal = terminal_named(site, name)?;
    Some(Act::Enter(terminal))
}

fn print_told(site: &Site, line: &[u8]) -> Option<Act>
    requires { KeepsSiteLimits site.now }
    ensures { result ≡ print_told site.now line.now }
{
    let name = rest_after(b"A print ", line)?;
    let terminal = terminal_named(site, name)?;
    Some(Act::Print(terminal))
}

/// Whether it is a write or a reply.
fn is_shown(site: &Site, line: &[u8]) -> bool
    requires { KeepsSiteLimits site.now }
    ensures { result ≡ is_shown site.now line.now }
{
    match rest_after(b"W ", line) {
        Some(text) => is_write_text(site, text),
        None => is_reply(site, line),
    }
}

fn is_reply(site: &Site, line: &[u8]) -> bool
    requires { KeepsSiteLimits site.now }
    ensures { result ≡ is_reply site.now line.now }
{
    let Some(text) = rest_after(b"R ", line) else {
        return false;
    };
    let Some((name, _, words)) = parts_told(text) else {
        return false;
    };
    terminal_named(site, name).is_some() && words <= MOST_MESSAGE_WORDS
}

/// Whether it tells what stands on a sector.
fn is_sector(site: &Site, line: &[u8]) -> bool
    requires { KeepsSiteLimits site.now }
    ensures { result ≡ is_sector site.now line.now }
{
    match rest_after(b"D ", line) {
        Some(text) => is_write_text(site, text),
        None => false,
    }
}

/// Whether it is a sector of the site, and eight words.
fn is_write_text(site: &Site, text: &[u8]) -> bool
    requires { KeepsSiteLimits site.now }
    ensures { result ≡ is_write_text site.now text.now }
{
    let Some((name, sector, words)) = parts_told(text) else {
        return false;
    };
    has_sector(site, process_named(site, name), sector) && words == 8
}

/// A name, a number, and how many words there are.
fn parts_told(text: &[u8]) -> Option<(&[u8], u32, usize)>
    ensures { option_map (λ parts. (parts.0.now, parts.1, parts.2)) result ≡ parts_told text.now }
{
    let (name, rest) = cut_at(b' ', text)?;
    let (digits, words) = cut_at(b':', rest)?;
    let number = number_told(digits)?;
    let count = word_count(words)?;
    Some((name, number, count))
}

fn has_sector(site: &Site, process: Option<u8>, sector: u32) -> bool
    ensures { result ≡ has_sector site.now process sector }
{
    let Some(process) = process else {
        return false;
    };
    match site.processes.get(usize::from(process)) {
        Some(spec) => has_sectors(&spec.what, sector),
        None => false,
    }
}

fn has_sectors(kind: &Kind, sector: u32) -> bool
    ensures { result ≡ has_sectors kind.now sector }
{
    match kind {
        Kind::Disc { sectors, .. } => sector < u32::from(*sectors),
        Kind::Pair(_) => false,
    }
}

fn stop_told(site: &Site, line: &[u8]) -> Option<u8>
    ensures { result ≡ stop_told site.now line.now }
{
    let text = rest_after(b"S ", line)?;
    processor_told(site, text)
}

fn processor_told(site: &Site, text: &[u8]) -> Option<u8>
    ensures { result ≡ processor_told site.now text.now }
{
    let number = number_told(text)?;
    if number < u32::from(site.processors) {
        Some(number as u8)
    } else {
        None
    }
}

fn end_told(site: &Site, line: &[u8]) -> Option<End>
    ensures { result ≡ end_told site.now line.now }
{
    if line == b"END idle".as_slice() {
        Some(End::Idle)
    } else if line == b"END cut".as_slice() {
        Some(End::Cut)
    } else {
        second_told(site, line)
    }
}

fn second_told(site: &Site, line: &[u8]) -> Option<End>
    ensures { result ≡ second_told site.now line.now }
{
    let text = rest_after(b"END second ", line)?;
    let processor = processor_told(site, text)?;
    Some(End::Second(processor))
}
