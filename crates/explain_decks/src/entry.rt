ghost use Rattle.std.specs.Prelude.{◌≡◌, ◌++◌};
ghost use Rattle.explain_decks.specs.Ends.{TellEnds};
ghost use Rattle.explain_decks.specs.Written.{CanBeRun, CanBeWritten, Comes, IsTraced, IsWritten, judged_status};
ghost use Rattle.explain_decks.specs.Written.{status_after, status_number};
ghost use Rattle.fault_text.specs.trace_print.specs.FaultLine.{IsOfDeck, fault_line};
ghost use Rattle.explain_decks.specs.declared.status.Status.{Status};

use crate::decide::due_of_source;
use crate::due::{Due, RefusedDeck, TracedDeck};
use crate::status::Status;
use crate::telling::Telling;
use explain_chart::{TraceFault, trace_deck};
use fault_text::write_why;
use gd_io::{Sink, Source, WriteFault, put_all};
use std::alloc::Global;

/// Tells of a deck as `tell` does, and answers the number of its status, with which the program ends.
pub fn tell_number<S: Source, K: Sink, P: Sink>(
    alloc: Global,
    telling: Telling,
    source: &mut S,
    sink: &mut K,
    progress: &mut P,
) -> u8
    ensures { (status : Status)
        × TellEnds S.left S.faults S.sure K.held K.faults K.sure P.held P.faults P.sure telling source.old source.new
        sink.old sink.new progress.old progress.new status
        × (result ≡ status_number status) }
{
    tell(alloc, telling, source, sink, progress).number()
}

/// Reads a deck from the source to its end, and writes to the sink what is to be told of it. Where it can't be read,
/// that is the fault as a sentence, the deck's line with its number, a caret under the column, what often lies behind
/// it, and the line that `guardian` writes. How far a search for a run that breaks is goes to `progress` meanwhile.
pub fn tell<S: Source, K: Sink, P: Sink>(
    alloc: Global,
    telling: Telling,
    source: &mut S,
    sink: &mut K,
    progress: &mut P,
) -> Status
    ensures { TellEnds S.left S.faults S.sure K.held K.faults K.sure P.held P.faults P.sure telling source.old
        source.new sink.old sink.new progress.old progress.new result }
{
    let due = due_of_source(alloc, telling, source, progress);
    put_due(alloc, due, sink)
}

/// Writes what is due, or runs a deck with its events told.
fn put_due<K: Sink>(alloc: Global, due: Due, sink: &mut K) -> Status
    requires { CanBeWritten due }
    ensures { Comes K.held K.faults K.sure due sink.old sink.new result }
{
    match due {
        Due::Judged(judged) => put_told(
            sink,
            judged.told.as_slice(),
            judged_status(judged.refused),
        ),
        Due::Runs(run) => trace(alloc, run, sink),
        Due::NoProcessor => put_told(
            sink,
            b"usage: --fail P:K stops a processor P that the deck has\n",
            Status::NoProcessor,
        ),
        Due::ChartTooLong => put_told(
            sink,
            b"usage: a chart has room for 400 events; --from E and --to E ask for fewer\n",
            Status::ChartTooLong,
        ),
        Due::Refused(refused) => put_refused(sink, &refused),
        Due::ReadFault => put_told(sink, b"", Status::ReadFault),
        Due::NoMemory(memory) => put_told(sink, b"", Status::NoMemory(memory)),
    }
}

/// Writes a text, and answers this status, if it went out whole.
fn put_told<K: Sink>(sink: &mut K, text: &[u8], whole: Status) -> Status
    ensures { IsWritten K.held K.faults K.sure text.now whole sink.old sink.new result }
{
    status_after(whole, put_all(sink, text))
}

fn put_refused<K: Sink>(sink: &mut K, refused: &RefusedDeck) -> Status
    requires { IsOfDeck refused.now.fault }
    ensures { IsWritten K.held K.faults K.sure (refused.now.told ++ fault_line refused.now.fault)
        (Status.Refused refused.now.fault) sink.old sink.new result }
{
    let written = write_why(sink, refused.told.as_slice(), &refused.fault);
    status_after(Status::Refused(refused.fault), written)
}

/// Runs a deck, and tells of its events.
fn trace<K: Sink>(alloc: Global, run: TracedDeck, sink: &mut K) -> Status
    requires { CanBeRun run }
    ensures { IsTraced K.held K.faults K.sure run sink.old sink.new result }
{
    let TracedDeck {
        deck,
        places,
        stop,
        manner,
    } = run;
    match trace_deck(alloc, deck, &places, stop, manner, sink) {
        Ok(_) => Status::Done,
        Err(TraceFault::Write(_)) => Status::WriteFault,
        Err(TraceFault::NoMemory(memory)) => Status::NoMemory(memory),
    }
}

/// The status, by whether the text went out whole.
fn status_after(whole: Status, written: Result<(), WriteFault>) -> Status
    ensures { result ≡ status_after whole written }
{
    match written {
        Ok(()) => whole,
        Err(WriteFault) => Status::WriteFault,
    }
}

fn judged_status(refused: bool) -> Status
    ensures { result ≡ judged_status refused }
{
    if refused {
        Status::ProgramRefused
    } else {
        Status::Done
    }
}
