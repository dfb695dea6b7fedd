ghost use Rattle.std.specs.Prelude.{◌≡◌, Ok, map, string_bytes};
ghost use Rattle.gd_io.specs.Puts.{Puts};
ghost use Rattle.command_dues.specs.Ends.{Ends};
ghost use Rattle.command_dues.specs.Numbers.{status_number};
ghost use Rattle.command_dues.specs.RunEnds.{closing_of};
ghost use Rattle.command_dues.specs.Written.{text_of, text_of_run, text_telling, told_acts, run_of, outcome_of};
ghost use Rattle.command_dues.specs.Written.{CanBeWritten, cause_of};
ghost use Rattle.command_dues.specs.declared.outcome.Outcome.{Outcome};

use crate::decide::decide;
use command_dues::{
    Closing, Due, End, Outcome, RefusedSite, Report, RunEnd, Status, Telling, Why, write_advised,
    write_checked, write_fault, write_load_report, write_refusal, write_rejected, write_report,
    write_sweep, write_usage, write_verified,
};
use gd_io::{Sink, Source, WriteFault};
use schedule_loop::Ending;
use std::alloc::Global;
use tal_tree::Act;
use verdicts::RefusedProgram;

/// Runs one command as `command` does, and answers the number of its status, with which the program ends.
pub fn exit_number<S: Source, K: Sink>(
    alloc: Global,
    words: &[String],
    source: &mut S,
    sink: &mut K,
) -> u8
    ensures { (outcome : Outcome)
        × Ends S.left S.faults S.sure K.held K.faults K.sure (map string_bytes words.entry.now) source.old source.new
        sink.old sink.new outcome
        × (result ≡ status_number outcome.status) }
{
    command(alloc, words, source, sink).status.number()
}

/// Runs one command; the words have the program's name first. `check` reads a deck from the source to its end, judges
/// its programs in deck order and writes to the sink that all are accepted, or why the first is refused that isn't.
/// `run` judges them so before any act, and where all are accepted it runs the deck's schedule on the machine of copies
/// and writes the report; `run --acts` tells the acts that the run keeps besides, and `run --fail P:K` stops a
/// processor. Any other words give the usage, and so does a processor that the deck hasn't. `load N` reads no deck: it
/// runs the load deck with N requests of each terminal, and tells in place of each write and reply how many there were.
/// `sweep N` judges a deck as `run` does, runs it once for each of its processors and each number of events below N,
/// with a stop of that processor after so many, and tells for each processor how its runs ended. `advise` tells for
/// each program what its CHECKPOINTs have to name and how many replies its files need, or why the first is refused that
/// nothing mends. `verify` reads a deck and after it a report as `run --acts` writes one, judges the programs as `run`
/// does, and tells whether the report is one of the deck by the machine of single unfailing processes, or at which line
/// and for which cause it isn't.
pub fn command<S: Source, K: Sink>(
    alloc: Global,
    words: &[String],
    source: &mut S,
    sink: &mut K,
) -> Outcome
    ensures { Ends S.left S.faults S.sure K.held K.faults K.sure (map string_bytes words.entry.now) source.old
        source.new sink.old sink.new result }
{
    let due = decide(alloc, words, source);
    let written = write_due(sink, &due);
    outcome_of(due, written)
}

fn write_due<K: Sink>(sink: &mut K, due: &Due) -> Result<(), WriteFault>
    requires { CanBeWritten due.now }
    ensures { Puts K.held K.faults K.sure sink.old sink.new (text_of due.now) result }
{
    match due {
        Due::Usage => write_usage(sink),
        Due::DeckRefused(fault) => write_fault(sink, fault),
        Due::ProgramRefused(refused) => write_refused(sink, refused),
        Due::Accepted(site) => write_checked(sink, site),
        Due::Report(report) => write_run(sink, report),
        Due::Swept(table) => write_sweep(sink, table.rows()),
        Due::Verified(acts) => write_verified(sink, *acts),
        Due::Rejected { line, why } => write_rejected(sink, *line, cause_of(*why)),
        Due::Advised(advised) => write_advised(sink, &advised.site, advised.pairs.as_slice()),
        Due::Unadvised(refused) => write_refused(sink, refused),
        Due::ReadFault => Ok(()),
        Due::NoMemory(_) => Ok(()),
    }
}

fn write_run<K: Sink>(sink: &mut K, report: &Report) -> Result<(), WriteFault>
    requires { CanBeWritten (Due.Report report.now) }
    ensures { Puts K.held K.faults K.sure sink.old sink.new (text_of_run report.now) result }
{
    match report.tells {
        Telling::Lines { acts } => write_lines(sink, report, acts),
        Telling::Counts { requests } => write_counts(sink, report, requests),
    }
}

fn write_lines<K: Sink>(sink: &mut K, report: &Report, acts: bool) -> Result<(), WriteFault>
    requires { CanBeWritten (Due.Report report.now) }
    ensures { Puts K.held K.faults K.sure sink.old sink.new (text_telling (Telling.Lines acts) report.now) result }
{
    let site = report.site.get();
    let shown = report.run.shown();
    let sectors = report.sectors.as_slice();
    let mirrors = report.mirrors.as_slice();
    let stopped = report.stopped.as_slice();
    let acts = told_acts(&report.run, acts);
    let closing = closing_of(report.run.ran.ending);
    write_report(sink, site, shown, sectors, mirrors, stopped, acts, closing)
}

fn write_counts<K: Sink>(sink: &mut K, report: &Report, requests: u32) -> Result<(), WriteFault>
    ensures { Puts K.held K.faults K.sure sink.old sink.new (text_telling (Telling.Counts requests) report.now) result }
{
    let site = report.site.get();
    let counts = report.run.counts(requests);
    let sectors = report.sectors.as_slice();
    let stopped = report.stopped.as_slice();
    let closing = closing_of(report.run.ran.ending);
    write_load_report(sink, site, counts, sectors, stopped, closing)
}

fn write_refused<K: Sink>(sink: &mut K, refused: &RefusedSite) -> Result<(), WriteFault>
    ensures { Puts K.held K.faults K.sure sink.old sink.new (text_of (Due.ProgramRefused refused.now)) result }
{
    let found = &refused.found;
    let lines = found.lines.as_slice();
    write_refusal(sink, &refused.site, found.process, &found.refusal, lines)
}

/// The acts that are told of a run.
fn told_acts(run: &RunEnd, acts: bool) -> &[Act]
    ensures { result.now ≡ told_acts acts run.now }
{
    if acts { run.acts() } else { &[] }
}

/// The number of the cause for which a report is rejected.
fn cause_of(why: Why) -> u8
    ensures { result ≡ cause_of why }
{
    match why {
        Why::Form => 1,
        Why::Act => 2,
        Why::Differs => 3,
        Why::NotIdle => 4,
    }
}

fn closing_of(ending: Ending) -> Closing
    ensures { result ≡ closing_of ending }
{
    match ending {
        Ending::Idle => Closing::Ended(End::Idle),
        Ending::Cut => Closing::Ended(End::Cut),
        Ending::Second(processor) => Closing::Ended(End::Second(processor)),
        Ending::Lost(process) => Closing::Lost(process),
    }
}

/// The outcome, by whether the text that is due went out whole.
fn outcome_of(due: Due, written: Result<(), WriteFault>) -> Outcome
    ensures { result ≡ outcome_of due written }
{
    match written {
        Ok(()) => done(due),
        Err(WriteFault) => cut_off(due),
    }
}

/// The outcome of what is written whole.
fn done(due: Due) -> Outcome
    ensures { result ≡ outcome_of due (Ok tt) }
{
    match due {
        Due::Usage => Outcome::without_run(Status::Usage),
        Due::ReadFault => Outcome::without_run(Status::ReadFault),
        Due::NoMemory(memory) => Outcome::without_run(Status::NoMemory(memory)),
        Due::DeckRefused(fault) => Outcome::without_run(Status::DeckRefused(fault)),
        Due::ProgramRefused(refused) => Outcome::without_run(status_of_refused(refused)),
        Due::Accepted(_) => Outcome::without_run(Status::Done),
        Due::Swept(_) => Outcome::without_run(Status::Done),
        Due::Verified(_) => Outcome::without_run(Status::Done),
        Due::Rejected { line, why } => Outcome::without_run(Status::Rejected { line, why }),
        Due::Advised(_) => Outcome::without_run(Status::Done),
        Due::Unadvised(refused) => Outcome::without_run(status_of_refused(refused)),
        Due::Report(report) => Outcome {
            status: report.run.status(),
            run: Some(report.run),
        },
    }
}

fn status_of_refused(refused: RefusedSite) -> Status
    ensures { result ≡ Status.Refused refused.found.process refused.found.refusal }
{
    let RefusedSite { site: _, found } = refused;
    let RefusedProgram {
        process,
        refusal,
        lines: _,
    } = found;
    Status::Refused { process, refusal }
}

/// The outcome where a write failed.
fn cut_off(due: Due) -> Outcome
    ensures { result ≡ record { status = Status.WriteFault; run = run_of due } }
{
    let run = match due {
        Due::Report(report) => Some(report.run),
        Due::Usage => None,
        Due::ReadFault => None,
        Due::NoMemory(_) => None,
        Due::DeckRefused(_) => None,
        Due::ProgramRefused(_) => None,
        Due::Accepted(_) => None,
        Due::Swept(_) => None,
        Due::Verified(_) => None,
        Due::Rejected { line: _, why: _ } => None,
        Due::Advised(_) => None,
        Due::Unadvised(_) => None,
    };
    Outcome {
        status: Status::WriteFault,
        run,
    }
}
