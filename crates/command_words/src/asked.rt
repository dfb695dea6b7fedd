ghost use Rattle.std.specs.Prelude.{◌≡◌, IfOk, IfSome, map, option_map, string_bytes};
ghost use Rattle.clap.specs.Words.{found_of, rows_of};
ghost use Rattle.command_words.specs.Asked.{IsInRange, asks_for_acts, asked_by, check_as, command_as, command_in};
ghost use Rattle.command_words.specs.Asked.{advise_as, load_as, load_of, run_as, stop_at, stop_of, sweep_as};
ghost use Rattle.command_words.specs.Asked.{sweep_of, verify_as};

use crate::line::{parsed, text_of};
use clap::ArgMatches;
use deck_lines::written_number;
use gd_words::NoMemory;
use gd_words::limits::MOST_PROCESSORS;
use player::ProcessorStop;
use std::alloc::Global;

/// What a command is to do.
#[derive(Clone, Copy, PartialEq, Eq)]
pub enum Command {
    /// To judge the programs of a deck, and, where all are accepted, to play it, with this stop, of a processor 0 to
    /// 15, beside those of the schedule, and to tell the acts that are kept, if they are asked for.
    Run {
        acts: bool,
        stop: Option<ProcessorStop>,
    },
    /// To judge the programs of a deck.
    Check,
    /// To play the deck that is made for this number, 1 to 200.
    Load(u32),
    /// To judge the programs of a deck, and, where all are accepted, to play it once for each of its processors and
    /// each number of events below this one, 1 to 10,000, with a stop of that processor after so many.
    Sweep(u32),
    /// To judge the programs of a deck, and, where all are accepted, the report that follows it.
    Verify,
    /// To say what the programs of a deck have to name and keep at the least.
    Advise,
}

/// The command that the words ask for, the program's name first; none where they ask for none.
pub fn asked_by(alloc: Global, words: &[String]) -> Result<Option<Command>, NoMemory>
    ensures value { IfOk result (λ command. command ≡ asked_by (map string_bytes words.entry.now)) }
    ensures range { IfOk result (λ command. IfSome command IsInRange) }
{
    let parse = parsed(alloc, words)?;
    match parse {
        Some(matches) => Ok(command_in(&matches)),
        None => Ok(None),
    }
}

fn command_in(matches: &ArgMatches) -> Option<Command>
    ensures { result ≡ command_in (rows_of (found_of matches.now)) }
{
    let mode = text_of(matches, "mode")?;
    let number = text_of(matches, "number");
    let acts = asks_for_acts(matches);
    let fail = text_of(matches, "fail");
    command_as(mode, number, acts, fail)
}

// Whether the words ask for the acts. Not by `get_flag`, which promises nothing of other values than `true` and
// `false`.
fn asks_for_acts(matches: &ArgMatches) -> bool
    ensures { result ≡ asks_for_acts (rows_of (found_of matches.now)) }
{
    match text_of(matches, "acts") {
        Some(text) => text == "true",
        None => false,
    }
}

fn command_as(mode: &str, number: Option<&str>, acts: bool, fail: Option<&str>) -> Option<Command>
    ensures { result ≡ command_as mode.now (option_map (λ s. s.now) number.entry) acts
        (option_map (λ s. s.now) fail.entry) }
{
    match mode {
        "run" => run_as(number, acts, fail),
        "check" => check_as(number, acts, fail),
        "load" => load_as(number, acts, fail),
        "sweep" => sweep_as(number, acts, fail),
        "verify" => verify_as(number, acts, fail),
        "advise" => advise_as(number, acts, fail),
        _ => None,
    }
}

fn run_as(number: Option<&str>, acts: bool, fail: Option<&str>) -> Option<Command>
    ensures { result ≡ run_as (option_map (λ s. s.now) number.entry) acts (option_map (λ s. s.now) fail.entry) }
{
    match (number, fail) {
        (None, None) => Some(Command::Run { acts, stop: None }),
        (None, Some(fail)) => {
            let stop = stop_of(fail)?;
            Some(Command::Run {
                acts,
                stop: Some(stop),
            })
        }
        (Some(_), _) => None,
    }
}

fn check_as(number: Option<&str>, acts: bool, fail: Option<&str>) -> Option<Command>
    ensures { result ≡ check_as (option_map (λ s. s.now) number.entry) acts (option_map (λ s. s.now) fail.entry) }
{
    match (number, acts, fail) {
        (None, false, None) => Some(Command::Check),
        _ => None,
    }
}

fn advise_as(number: Option<&str>, acts: bool, fail: Option<&str>) -> Option<Command>
    ensures { result ≡ advise_as (option_map (λ s. s.now) number.entry) acts (option_map (λ s. s.now) fail.entry) }
{
    match (number, acts, fail) {
        (None, false, None) => Some(Command::Advise),
        _ => None,
    }
}

fn load_as(number: Option<&str>, acts: bool, fail: Option<&str>) -> Option<Command>
    ensures { result ≡ load_as (option_map (λ s. s.now) number.entry) acts (option_map (λ s. s.now) fail.entry) }
{
    match (number, acts, fail) {
        (Some(number), false, None) => load_of(written_number(number.as_bytes())),
        _ => None,
    }
}

fn load_of(number: Option<u32>) -> Option<Command>
    ensures { result ≡ load_of number }
{
    match number {
        Some(n) if 1 <= n && n <= 200 => Some(Command::Load(n)),
        _ => None,
    }
}

fn sweep_as(number: Option<&str>, acts: bool, fail: Option<&str>) -> Option<Command>
    ensures { result ≡ sweep_as (option_map (λ s. s.now) number.entry) acts (option_map (λ s. s.now) fail.entry) }
{
    match (number, acts, fail) {
        (Some(number), false, None) => sweep_of(written_number(number.as_bytes())),
        _ => None,
    }
}

fn sweep_of(number: Option<u32>) -> Option<Command>
    ensures { result ≡ sweep_of number }
{
    match number {
        Some(n) if 1 <= n && n <= 10_000 => Some(Command::Sweep(n)),
        _ => None,
    }
}

fn verify_as(number: Option<&str>, acts: bool, fail: Option<&str>) -> Option<Command>
    ensures { result ≡ verify_as (option_map (λ s. s.now) number.entry) acts (option_map (λ s. s.now) fail.entry) }
{
    match (number, acts, fail) {
        (None, false, None) => Some(Command::Verify),
        _ => None,
    }
}

/// The stop that `P:K` names; none where it names none.
pub fn stop_of(text: &str) -> Option<ProcessorStop>
    ensures { result ≡ stop_of text.now }
{
    let (processor, after) = text.split_once(':')?;
    stop_at(
        written_number(processor.as_bytes()),
        written_number(after.as_bytes()),
    )
}

fn stop_at(processor: Option<u32>, after: Option<u32>) -> Option<ProcessorStop>
    ensures { result ≡ stop_at processor after }
{
    match (processor, after) {
        (Some(processor), Some(after)) if processor < MOST_PROCESSORS as u32 => Some(
            ProcessorStop {
                processor: processor as u8,
                after,
            },
        ),
        _ => None,
    }
}
