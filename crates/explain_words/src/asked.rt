ghost use Rattle.std.specs.Prelude.{◌≡◌, IfOk, map, option_map, string_bytes};
ghost use Rattle.clap.specs.Words.{found_of, rows_of};
ghost use Rattle.explain_words.specs.Asked.{IsAsked, IsFileAsked, breaks_as, chart_as, event_number};
ghost use Rattle.explain_words.specs.Asked.{has_flag, kind_question, left_as, question_as, question_in, stop_asked};
ghost use Rattle.explain_words.specs.Asked.{told_as, told_run, trace_as, why_as, without_events, without_flags};

use crate::line::{Parse, parsed, text_of};
use clap::ArgMatches;
use clap::error::ErrorKind;
use command_words::stop_of;
use deck_lines::written_number;
use gd_words::NoMemory;
use player::ProcessorStop;
use std::alloc::Global;

/// What is to be told.
#[derive(Clone, Copy, PartialEq, Eq)]
pub enum Question {
    /// Of a deck, why it can't be read, or why its programs are refused.
    Why,
    /// Of a deck, what is left once it was run, with this stop of a processor where there is one.
    Left(Option<ProcessorStop>),
    /// Of a deck whose programs are refused, a run of it that breaks.
    Breaks,
    /// Of a deck, what each event of its run did, with this stop of a processor where there is one, from the event of a
    /// number, which counts from 1, to that of another, as JSON or as text.
    Trace {
        stop: Option<ProcessorStop>,
        from: u32,
        to: u32,
        json: bool,
    },
    /// Of a deck, the chart of its run, with this stop of a processor where there is one, from the event of a number to
    /// that of another, with alive packets or without.
    Chart {
        stop: Option<ProcessorStop>,
        from: u32,
        to: u32,
        alive: bool,
    },
    /// What the program does and which words it takes.
    Help,
    /// The program's version.
    Version,
}

/// A run whose events are told: its stop, where there is one, and the numbers of the first and the last of them.
#[derive(Clone, Copy, PartialEq, Eq)]
pub struct ToldRun {
    pub stop: Option<ProcessorStop>,
    pub from: u32,
    pub to: u32,
}

/// What the words ask for, the program's name first; none where they ask for nothing.
pub fn asked_by(alloc: Global, words: &[String]) -> Result<Option<Question>, NoMemory>
    ensures { IfOk result (λ question. IsAsked (map string_bytes words.entry.now) question) }
{
    let parse = parsed(alloc, words)?;
    match parse {
        Parse::Words(matches) => Ok(question_in(&matches)),
        Parse::Refused(kind) => Ok(kind_question(kind)),
    }
}

/// The name of the file that the words ask of, the program's name first; none where they name no file.
pub fn file_asked<'a>(alloc: Global, words: &'a [String]) -> Result<Option<&'a str>, NoMemory>
    ensures { IfOk result (λ file. IsFileAsked (map string_bytes words.entry.now)
        (option_map (λ name. name.now) file)) }
{
    let parse = parsed(alloc, words)?;
    match parse {
        Parse::Words(matches) => Ok(text_of(&matches, "file")),
        Parse::Refused(_) => Ok(None),
    }
}

fn question_in(matches: &ArgMatches) -> Option<Question>
    ensures { result ≡ question_in (rows_of (found_of matches.now)) }
{
    let mode = text_of(matches, "mode")?;
    let fail = text_of(matches, "fail");
    let from = text_of(matches, "from");
    let to = text_of(matches, "to");
    let json = has_flag(matches, "json");
    let alive = has_flag(matches, "alive");
    question_as(mode, fail, from, to, json, alive)
}

/// Whether a flag is there. Not by `get_flag`, which promises nothing of other values than `true` and `false`.
fn has_flag(matches: &ArgMatches, id: &str) -> bool
    ensures { result ≡ has_flag id.now (rows_of (found_of matches.now)) }
{
    match text_of(matches, id) {
        Some(text) => text == "true",
        None => false,
    }
}

fn question_as(
    mode: &str,
    fail: Option<&str>,
    from: Option<&str>,
    to: Option<&str>,
    json: bool,
    alive: bool,
) -> Option<Question>
    ensures { result ≡ question_as mode.now (option_map (λ text. text.now) fail.entry)
        (option_map (λ text. text.now) from.entry) (option_map (λ text. text.now) to.entry) json alive }
{
    match mode {
        "trace" => trace_as(fail, from, to, json, alive),
        "chart" => chart_as(fail, from, to, json, alive),
        _ => without_flags(mode, fail, from, to, json || alive),
    }
}

fn without_flags(
    mode: &str,
    fail: Option<&str>,
    from: Option<&str>,
    to: Option<&str>,
    flagged: bool,
) -> Option<Question>
    ensures { result ≡ without_flags mode.now (option_map (λ text. text.now) fail.entry)
        (option_map (λ text. text.now) from.entry) (option_map (λ text. text.now) to.entry) flagged }
{
    if flagged {
        return None;
    }
    without_events(mode, fail, from, to)
}

fn without_events(
    mode: &str,
    fail: Option<&str>,
    from: Option<&str>,
    to: Option<&str>,
) -> Option<Question>
    ensures { result ≡ without_events mode.now (option_map (λ text. text.now) fail.entry)
        (option_map (λ text. text.now) from.entry) (option_map (λ text. text.now) to.entry) }
{
    match (from, to) {
        (None, None) => told_as(mode, fail),
        (None, Some(_)) => None,
        (Some(_), _) => None,
    }
}

fn told_as(mode: &str, fail: Option<&str>) -> Option<Question>
    ensures { result ≡ told_as mode.now (option_map (λ text. text.now) fail.entry) }
{
    match mode {
        "why" => why_as(fail),
        "left" => left_as(fail),
        "break" => breaks_as(fail),
        _ => None,
    }
}

fn why_as(fail: Option<&str>) -> Option<Question>
    ensures { result ≡ why_as (option_map (λ text. text.now) fail.entry) }
{
    match fail {
        None => Some(Question::Why),
        Some(_) => None,
    }
}

fn left_as(fail: Option<&str>) -> Option<Question>
    ensures { result ≡ left_as (option_map (λ text. text.now) fail.entry) }
{
    let stop = stop_asked(fail)?;
    Some(Question::Left(stop))
}

/// The stop that the words give, if they give one.
fn stop_asked(fail: Option<&str>) -> Option<Option<ProcessorStop>>
    ensures { result ≡ stop_asked (option_map (λ text. text.now) fail.entry) }
{
    match fail {
        None => Some(None),
        Some(fail) => {
            let stop = stop_of(fail)?;
            Some(Some(stop))
        }
    }
}

fn breaks_as(fail: Option<&str>) -> Option<Question>
    ensures { result ≡ breaks_as (option_map (λ text. text.now) fail.entry) }
{
    match fail {
        None => Some(Question::Breaks),
        Some(_) => None,
    }
}

fn trace_as(
    fail: Option<&str>,
    from: Option<&str>,
    to: Option<&str>,
    json: bool,
    alive: bool,
) -> Option<Question>
    ensures { result ≡ trace_as (option_map (λ text. text.now) fail.entry) (option_map (λ text. text.now) from.entry)
        (option_map (λ text. text.now) to.entry) json alive }
{
    if alive {
        return None;
    }
    let run = told_run(fail, from, to)?;
    Some(Question::Trace {
        stop: run.stop,
        from: run.from,
        to: run.to,
        json,
    })
}

fn chart_as(
    fail: Option<&str>,
    from: Option<&str>,
    to: Option<&str>,
    json: bool,
    alive: bool,
) -> Option<Question>
    ensures { result ≡ chart_as (option_map (λ text. text.now) fail.entry) (option_map (λ text. text.now) from.entry)
        (option_map (λ text. text.now) to.entry) json alive }
{
    if json {
        return None;
    }
    let run = told_run(fail, from, to)?;
    Some(Question::Chart {
        stop: run.stop,
        from: run.from,
        to: run.to,
        alive,
    })
}

/// The run that is told with these values of `--fail`, `--from` and `--to`.
fn told_run(fail: Option<&str>, from: Option<&str>, to: Option<&str>) -> Option<ToldRun>
    ensures { result ≡ told_run (option_map (λ text. text.now) fail.entry) (option_map (λ text. text.now) from.entry)
        (option_map (λ text. text.now) to.entry) }
{
    let from = event_number(from, 1)?;
    let to = event_number(to, u32::MAX)?;
    let stop = stop_asked(fail)?;
    Some(ToldRun { stop, from, to })
}

/// The number of an event, or this one where the words give none.
fn event_number(text: Option<&str>, missing: u32) -> Option<u32>
    ensures { result ≡ event_number (option_map (λ text. text.now) text.entry) missing }
{
    match text {
        None => Some(missing),
        Some(text) => written_number(text.as_bytes()),
    }
}

/// What words ask for that clap doesn't take for this.
fn kind_question(kind: ErrorKind) -> Option<Question>
    ensures { result ≡ kind_question kind }
{
    match kind {
        ErrorKind::DisplayHelp => Some(Question::Help),
        ErrorKind::DisplayVersion => Some(Question::Version),
        _ => None,
    }
}
