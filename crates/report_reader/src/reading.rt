//! Reads all lines of a report.
ghost use Rattle.std.specs.Prelude.{◌≡◌, ◌<◌, ◌≤◌, IfErr, IfOk, Ok, length};
ghost use Rattle.plain_semantics.specs.SiteLimits.{KeepsSiteLimits};
ghost use Rattle.report_reader.specs.Reading.{IsFaultOf, ended_by, read_report};

use crate::names::opener_lists;
use crate::parts::cut_at;
use crate::told::{Told, next_told};
use gd_words::{List, NoMemory};
use std::alloc::Global;
use tal_tree::Site;
use trace_print::End;

/// What the lines of a report tell, in order, and the end that the last of them tells.
#[derive(Drop)]
pub struct Reading {
    pub told: List<Told>,
    pub end: End,
}

/// Why a report isn't read: the line of this number, from 1, can't stand there, or memory ran out. Where the report
/// ends too early, the number is that of the line that is missing.
#[derive(Drop)]
pub enum ReportFault {
    Formless(u32),
    NoMemory(NoMemory),
}

impl From<NoMemory> for ReportFault {
    ghost use Rattle.std.specs.Prelude.{◌≡◌};
    ghost use Rattle.report_reader.specs.declared.reading.ReportFault.TheVariants as fault;

    ghost from_gives = { λ memory answered. answered ≡ fault.NoMemory memory };

    fn from(memory: NoMemory) -> ReportFault {
        ReportFault::NoMemory(memory)
    }
}

/// What the lines of a report of a site tell.
pub fn read_report(alloc: Global, site: &Site, report: &[u8]) -> Result<Reading, ReportFault>
    requires limits { KeepsSiteLimits site.now }
    requires short { length report.now < 4294967295 }
    ensures ok { IfOk result (λ reading. read_report site.now report.now ≡ Ok reading) }
    ensures few { IfOk result (λ reading. length reading.told ≤ length report.now) }
    ensures err { IfErr result (IsFaultOf site.now report.now) }
{
    let lists = opener_lists(alloc, site)?;
    let mut told = List::new(alloc);
    let mut before = None;
    let mut rest = report;
    while let Some((line, after)) = cut_at(b'\n', rest) {
        let Some(next) = next_told(site, lists.as_slice(), before, line) else {
            return Err(ReportFault::Formless(told.len() as u32 + 1));
        };
        told.push(next)?;
        before = Some(next);
        rest = after;
    }
    match ended_by(before, rest) {
        Some(end) => Ok(Reading { told, end }),
        None => Err(ReportFault::Formless(told.len() as u32 + 1)),
    }
}

/// The end of a report, of which this line was the last and this text follows it.
fn ended_by(before: Option<Told>, rest: &[u8]) -> Option<End>
    ensures { result ≡ ended_by before rest.now }
{
    match before {
        Some(Told::End(end)) => { if rest.is_empty() { Some(end) } else { None } }
        _ => None,
    }
}
