ghost use Rattle.std.specs.Prelude.{◌≡◌, map, string_bytes};
ghost use Rattle.explain.specs.Answers.{Answers, IsShown, IsTold, IsUsage, IsWritten, ending_number};
ghost use Rattle.explain.specs.declared.ending.Ending.{Ending};

use crate::ending::Ending;
use explain_decks::{Manner, Scope, Span, Telling, tell};
use explain_words::{Question, asked_by, help_text, version_text};
use gd_io::{Sink, Source, WriteFault, put_all};
use gd_words::NoMemory;
use std::alloc::Global;

/// Does what the words ask for as `explain` does, and answers the number with which the program ends.
pub fn exit_number<S: Source, K: Sink, P: Sink>(
    alloc: Global,
    words: &[String],
    source: &mut S,
    sink: &mut K,
    progress: &mut P,
) -> u8
    ensures { (how : Ending)
        × Answers S.left S.faults S.sure K.held K.faults K.sure P.held P.faults P.sure
        (map string_bytes words.entry.now) source.old source.new sink.old sink.new progress.old progress.new how
        × (result ≡ ending_number how) }
{
    explain(alloc, words, source, sink, progress).number()
}

/// Does what the words ask for, the program's name first. `why` tells why the deck of the source can't be read, or why
/// its programs are refused, `left` what is left once it was run, `break` a run of it that breaks if a program is
/// refused, `trace` what each event of its run did, and `chart` draws it. `--help` and `--version` write what they ask
/// for, and other words give the usage. How far the search of `break` is goes to `progress` meanwhile.
pub fn explain<S: Source, K: Sink, P: Sink>(
    alloc: Global,
    words: &[String],
    source: &mut S,
    sink: &mut K,
    progress: &mut P,
) -> Ending
    ensures { Answers S.left S.faults S.sure K.held K.faults K.sure P.held P.faults P.sure
        (map string_bytes words.entry.now) source.old source.new sink.old sink.new progress.old progress.new result }
{
    match asked_by(alloc, words) {
        Err(memory) => Ending::NoMemory(memory),
        Ok(None) => write_usage(sink),
        Ok(Some(Question::Why)) => told(alloc, Telling::Why, source, sink, progress),
        Ok(Some(Question::Left(stop))) => told(alloc, Telling::Left(stop), source, sink, progress),
        Ok(Some(Question::Breaks)) => told(alloc, Telling::Breaks, source, sink, progress),
        Ok(
            Some(
                Question::Trace {
                    stop,
                    from,
                    to,
                    json,
                },
            ),
        ) => {
            let manner = Manner::of(from, to, json);
            told(
                alloc,
                Telling::Trace { stop, manner },
                source,
                sink,
                progress,
            )
        }
        Ok(
            Some(
                Question::Chart {
                    stop,
                    from,
                    to,
                    alive,
                },
            ),
        ) => {
            let span = Span { from, to };
            let scope = Scope { span, alive };
            told(
                alloc,
                Telling::Chart { stop, scope },
                source,
                sink,
                progress,
            )
        }
        Ok(Some(Question::Help)) => show(help_text(alloc), sink),
        Ok(Some(Question::Version)) => show(version_text(alloc), sink),
    }
}

/// Tells of the deck of the source.
fn told<S: Source, K: Sink, P: Sink>(
    alloc: Global,
    telling: Telling,
    source: &mut S,
    sink: &mut K,
    progress: &mut P,
) -> Ending
    ensures { IsTold S.left S.faults S.sure K.held K.faults K.sure P.held P.faults P.sure telling source.old source.new
        sink.old sink.new progress.old progress.new result }
{
    Ending::Told(tell(alloc, telling, source, sink, progress))
}

fn write_usage<K: Sink>(sink: &mut K) -> Ending
    ensures { IsUsage K.held K.faults K.sure sink.old sink.new result }
{
    match put_all(
        sink,
        b"usage: explain why [FILE]\n       explain left [--fail P:K] [FILE]\n       explain break [FILE]\n       explain trace [--fail P:K] [--from E] [--to E] [--json] [FILE]\n       explain chart [--fail P:K] [--from E] [--to E] [--alive] [FILE]\n",
    ) {
        Ok(()) => Ending::Usage,
        Err(WriteFault) => Ending::UsageUnwritten,
    }
}

/// Writes a text, if there was memory for it.
fn show<K: Sink>(text: Result<String, NoMemory>, sink: &mut K) -> Ending
    ensures { IsShown K.held K.faults K.sure sink.old sink.new result }
{
    match text {
        Err(memory) => Ending::NoMemory(memory),
        Ok(text) => show_text(text.as_bytes(), sink),
    }
}

fn show_text<K: Sink>(text: &[u8], sink: &mut K) -> Ending
    ensures { IsWritten K.held K.faults K.sure text.now sink.old sink.new result }
{
    match put_all(sink, text) {
        Ok(()) => Ending::Shown,
        Err(WriteFault) => Ending::ShownUnwritten,
    }
}
