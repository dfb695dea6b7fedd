//! The judgement of a report.
ghost use Rattle.std.specs.Prelude.{◌≡◌, ◌<◌, IfErr, Ok, OnOk, length};
ghost use Rattle.plain_machine.specs.Standing.{IsPlayable};
ghost use Rattle.plain_semantics.specs.SiteLimits.{KeepsSiteLimits};
ghost use Rattle.report_reader.specs.Reading.{read_report};
ghost use Rattle.report_judge.specs.Replays.{IsEndRefusal, IsEndedAs, IsTextRefusal, text_told};
ghost use Rattle.report_judge.specs.Verdicts.{IsVerdict, IsVerdictOn};

use crate::difference::first_difference;
use crate::replay::{Replay, replayed};
use crate::text::{acts_of, text_of};
use gd_words::NoMemory;
use report_reader::{End, Reading, ReportFault, Told, read_report};
use std::alloc::Global;
use tal_tree::{Act, Site};

/// Why a report is rejected.
#[derive(Clone, Copy, PartialEq, Eq)]
pub enum Why {
    /// The line has no form that a line has there, or names what the site hasn't.
    Form,
    /// The act of the line isn't possible after those before it.
    Act,
    /// The line isn't that of the report which the acts have.
    Differs,
    /// The report ends idle, and an act is left.
    NotIdle,
}

/// Why a report isn't verified: it is rejected at the line of this number, from 1, or memory ran out.
#[derive(Drop)]
pub enum VerifyFault {
    Rejected { line: u32, why: Why },
    NoMemory(NoMemory),
}

impl From<NoMemory> for VerifyFault {
    ghost use Rattle.std.specs.Prelude.{◌≡◌};
    ghost use Rattle.report_judge.specs.declared.judge.VerifyFault.TheVariants as refusal;

    ghost from_gives = { λ memory answered. answered ≡ refusal.NoMemory memory };

    fn from(memory: NoMemory) -> VerifyFault {
        VerifyFault::NoMemory(memory)
    }
}

/// How many acts the report of a run of this site tells, or why it isn't one.
pub fn verify(alloc: Global, site: &Site, report: &[u8]) -> Result<u32, VerifyFault>
    requires playable { IsPlayable site.now }
    requires short { length report.now < 4294967295 }
    ensures { IsVerdict site.now report.now result }
{
    match read_report(alloc, site, report) {
        Ok(reading) => judge(alloc, site, report, &reading),
        Err(ReportFault::Formless(line)) => {
            let why = Why::Form;
            Err(VerifyFault::Rejected { line, why })
        }
        Err(ReportFault::NoMemory(memory)) => Err(VerifyFault::NoMemory(memory)),
    }
}

fn judge(alloc: Global, site: &Site, report: &[u8], reading: &Reading) -> Result<u32, VerifyFault>
    requires playable { IsPlayable site.now }
    requires short { length report.now < 4294967295 }
    requires few { length reading.now.told < 4294967295 }
    requires read { read_report site.now report.now ≡ Ok reading.now }
    ensures { IsVerdictOn site.now report.now reading.now result }
{
    let told = reading.told.as_slice();
    let acts = acts_of(alloc, told)?;
    let acts = acts.as_slice();
    let replay = replayed(alloc, site, told)?;
    compare(alloc, site, report, &replay, reading, acts)?;
    judge_end(&replay, told, reading.end)?;
    Ok(acts.len() as u32)
}

/// Compares a report with the one that the acts have.
fn compare(
    alloc: Global,
    site: &Site,
    report: &[u8],
    replay: &Replay<'_>,
    reading: &Reading,
    acts: &[Act],
) -> Result<(), VerifyFault>
    requires limits { KeepsSiteLimits site.now }
    requires short { length report.now < 4294967295 }
    ensures ok { OnOk result (report.now ≡ text_told site.now replay.now reading.now acts.now) }
    ensures err { IfErr result (IsTextRefusal report.now (text_told site.now replay.now reading.now acts.now)) }
{
    let told = reading.told.as_slice();
    let text = text_of(alloc, site, replay.shown(), told, acts, reading.end)?;
    match first_difference(report, text.bytes()) {
        None => Ok(()),
        Some(line) => {
            let why = Why::Differs;
            Err(VerifyFault::Rejected { line, why })
        }
    }
}

/// Whether no act is left where the report tells that the run ended idle.
fn judge_end(replay: &Replay<'_>, told: &[Told], end: End) -> Result<(), VerifyFault>
    requires { length told.now < 4294967295 }
    ensures ok { OnOk result (IsEndedAs end replay.now) }
    ensures err { IfErr result (IsEndRefusal told.now end replay.now) }
{
    match end {
        End::Idle => {
            if replay.none_left() {
                Ok(())
            } else {
                let line = told.len() as u32;
                let why = Why::NotIdle;
                Err(VerifyFault::Rejected { line, why })
            }
        }
        _ => Ok(()),
    }
}
