ghost use Rattle.std.specs.Prelude.{◌≡◌, ◌≢◌, false, IfOk, map, option_map, string_bytes};
ghost use Rattle.clap.specs.Words.{FailsBy, HasMatchesOf, app_of, fault_of, first_of, found_of, rows_of, rule_of};
ghost use Rattle.explain_words.specs.Line.{IsParse, IsRefusedFor, file_rule, flag_rule, mode_rule, the_line};
ghost use Rattle.explain_words.specs.Line.{valued_rule};

use clap::error::ErrorKind;
use clap::{Arg, ArgAction, ArgMatches, Command, Error};
use gd_words::NoMemory;
use std::alloc::{AllocError, Global};

/// What clap makes of words.
#[derive(Drop)]
pub enum Parse<'a> {
    Words(ArgMatches<'a>),
    /// It refuses them, or they ask for help or the version.
    Refused(ErrorKind),
}

fn mode_argument<'a>(alloc: Global) -> Arg<'a>
    ensures rule { rule_of result ≡ mode_rule }
    ensures local { result.global ≡ false }
{
    Arg::new(alloc, "mode")
        .required(true)
        .action(ArgAction::Set)
        .help(
            "why: tells why a deck can't be read, or why its programs are refused; left: runs a deck and tells what is left; break: looks for a run that breaks if a program is refused; trace: runs a deck and tells of each event what it did; chart: runs a deck and draws its messages",
        )
}

fn file_argument<'a>(alloc: Global) -> Arg<'a>
    ensures rule { rule_of result ≡ file_rule }
    ensures local { result.global ≡ false }
{
    Arg::new(alloc, "file").action(ArgAction::Set).help(
        "The file with the deck; without it the deck is read from standard input",
    )
}

/// A flag of a name with one value, for which the help has this name.
fn valued_argument<'a>(alloc: Global, name: &'a str, value: &'a str, help: &'a str) -> Arg<'a>
    ensures rule { rule_of result ≡ valued_rule name.now }
    ensures local { result.global ≡ false }
{
    Arg::new(alloc, name)
        .long(name)
        .action(ArgAction::Set)
        .value_name(value)
        .help(help)
}

/// A flag of a name alone.
fn flag_argument<'a>(alloc: Global, name: &'a str, help: &'a str) -> Arg<'a>
    ensures rule { rule_of result ≡ flag_rule name.now }
    ensures local { result.global ≡ false }
{
    Arg::new(alloc, name)
        .long(name)
        .action(ArgAction::SetTrue)
        .help(help)
}

/// The words that a command line may have, as one simple command.
fn the_line<'a>(alloc: Global) -> Result<Command<'a>, AllocError>
    ensures { IfOk result (λ line. app_of line ≡ the_line) }
{
    Command::new(alloc, "explain")
        .about("Tells of a deck in words")
        .version("1")
        .arg(mode_argument(alloc))?
        .arg(file_argument(alloc))?
        .arg(valued_argument(
            alloc,
            "fail",
            "P:K",
            "Of left, trace and chart: stops processor P just before the event that K events precede",
        ))?
        .arg(valued_argument(
            alloc,
            "from",
            "E",
            "Of trace and chart: the first event that is told, by its number from 1",
        ))?
        .arg(valued_argument(
            alloc,
            "to",
            "E",
            "Of trace and chart: the last event that is told",
        ))?
        .arg(flag_argument(
            alloc,
            "json",
            "Of trace: writes each line as an object of JSON",
        ))?
        .arg(flag_argument(alloc, "alive", "Of chart: draws alive packets too"))
}

fn matches_of<'a>(alloc: Global, words: &'a [String]) -> Result<ArgMatches<'a>, Error>
    ensures matches { IfOk result (HasMatchesOf the_line (map string_bytes words.entry.now)) }
    ensures kinds { FailsBy (fault_of the_line (map string_bytes words.entry.now)) result }
{
    let line = the_line(alloc)?;
    line.try_get_matches_from(words)
}

/// What clap makes of the words, the program's name first.
pub fn parsed<'a>(alloc: Global, words: &'a [String]) -> Result<Parse<'a>, NoMemory>
    ensures { IfOk result (λ parse. IsParse (map string_bytes words.entry.now) parse) }
{
    match matches_of(alloc, words) {
        Ok(matches) => Ok(Parse::Words(matches)),
        Err(error) => refused(error.kind()),
    }
}

fn refused<'a>(kind: ErrorKind) -> Result<Parse<'a>, NoMemory>
    ensures kind { IfOk result (λ parse. IsRefusedFor kind parse) }
    ensures told { IfOk result (λ parse. kind ≢ ErrorKind.OutOfMemory) }
{
    match kind {
        ErrorKind::OutOfMemory => Err(NoMemory::from(AllocError)),
        kind => Ok(Parse::Refused(kind)),
    }
}

/// The text of `--help`.
pub fn help_text(alloc: Global) -> Result<String, NoMemory> {
    let mut line = the_line(alloc)?;
    Ok(line.render_help()?)
}

/// The text of `--version`.
pub fn version_text(alloc: Global) -> Result<String, NoMemory> {
    let line = the_line(alloc)?;
    Ok(line.render_version()?)
}

/// The first text that the words give to an argument.
pub fn text_of<'a>(matches: &ArgMatches<'a>, id: &str) -> Option<&'a str>
    ensures { option_map (λ text. text.now) result ≡ first_of id.now (rows_of (found_of matches.now)) }
{
    matches.get_str(id)
}
