ghost use Rattle.std.specs.Prelude.{◌≡◌, ◌≢◌, ◌≤◌, true, false, IfOk, Some, map, string_bytes};
ghost use Rattle.std.specs.Io.KnownBytes.{IsAtEnd};
ghost use Rattle.command_words.specs.Asked.{asked_by, IsInRange};
ghost use Rattle.load_deck.specs.LoadText.{load_text};
ghost use Rattle.plain_semantics.specs.SiteLimits.{KeepsSiteLimits};
ghost use Rattle.verdicts.specs.Refused.{AreAccepted};
ghost use Rattle.command_dues.specs.Tasks.{judges, load_task};
ghost use Rattle.command_dues.specs.Written.{CanBeWritten};
ghost use Rattle.command_dues.specs.Decided.{IsDue, IsDueOfCommand, IsDueOfSource, IsDueOfBytes, IsDueOfDeck};
ghost use Rattle.command_dues.specs.Decided.{IsDueOfPrograms, IsDueOfTask, IsDueOfRun, IsDueOfSweep};
ghost use Rattle.command_dues.specs.Decided.{IsDueOfAdvice};
ghost use Rattle.command_dues.specs.Decided.{IsReportOf, IsSpelt, IsOfWholeDeck, due_of_fault, reads_deck};

use crate::mirrors::mirrors_of;
use crate::sweep::swept;
use crate::verified::due_of_verify;
use accepted_decks::{
    a_run_of_an_accepted_site_keeps_possible_acts, an_accepted_deck_meets_the_premises,
};
use command_dues::{
    AdvisedSite, Deck, Due, RefusedSite, Report, RunEnd, SiteAdvice, Task, Telling, advise_all,
    read_deck, run, stopped_processors,
};
use command_words::{Command, asked_by};
use gd_io::{Source, SourceFault, read_all};
use gd_words::NoMemory;
use gd_words::limits::MOST_DECK_BYTES;
use load_deck::load_text;
use logs::Shared;
use player::ProcessorStop;
use shown_sectors::sectors_after;
use std::alloc::Global;
use tal_tree::DeckFault;
use verdicts::first_refused;

/// What is due: by the words, then by reading, then by the deck, then by the run. All memory is taken here.
pub fn decide<S: Source>(alloc: Global, words: &[String], source: &mut S) -> Due
    ensures due { IsDue (map string_bytes words.entry.now) (S.left source.old) (S.faults source.old)
        (S.faults source.new) result }
    ensures written { CanBeWritten result }
    ensures unfailing { S.sure source.old → result ≢ Due.ReadFault }
    ensures unread { reads_deck (asked_by (map string_bytes words.entry.now)) ≡ false → source.new ≡ source.old }
    ensures read_whole { reads_deck (asked_by (map string_bytes words.entry.now)) ≡ true → IsOfWholeDeck result
        → IsAtEnd (S.left source.new) }
{
    match asked_by(alloc, words) {
        Err(memory) => Due::NoMemory(memory),
        Ok(None) => Due::Usage,
        Ok(Some(command)) => due_of_command(alloc, command, source),
    }
}

fn due_of_command<S: Source>(alloc: Global, command: Command, source: &mut S) -> Due
    requires { IsInRange command }
    ensures due { IsDueOfCommand command (S.left source.old) (S.faults source.old) (S.faults source.new) result }
    ensures written { CanBeWritten result }
    ensures unfailing { S.sure source.old → result ≢ Due.ReadFault }
    ensures unread { reads_deck (Some command) ≡ false → source.new ≡ source.old }
    ensures read_whole { reads_deck (Some command) ≡ true → IsOfWholeDeck result → IsAtEnd (S.left source.new) }
{
    match command {
        Command::Run { acts, stop } => {
            let tells = Telling::Lines { acts };
            due_of_source(alloc, Task::Run { tells, stop }, source)
        }
        Command::Check => due_of_source(alloc, Task::Check, source),
        Command::Load(requests) => due_of_load(alloc, requests),
        Command::Sweep(runs) => due_of_source(alloc, Task::Sweep { runs }, source),
        Command::Verify => due_of_verify(alloc, source),
        Command::Advise => due_of_source(alloc, Task::Advise, source),
    }
}

/// The load deck is read from its text, as any other deck.
fn due_of_load(alloc: Global, requests: u32) -> Due
    requires { requests ≤ 200 }
    ensures due { IsDueOfBytes (load_task requests) (load_text requests) result }
    ensures written { CanBeWritten result }
    ensures unread { result ≢ Due.ReadFault }
{
    match load_text(alloc, requests) {
        Err(memory) => Due::NoMemory(memory),
        Ok(text) => due_of_bytes(alloc, Task::load(requests), text.as_slice()),
    }
}

fn due_of_source<S: Source>(alloc: Global, task: Task, source: &mut S) -> Due
    ensures due { IsDueOfSource task (S.left source.old) (S.faults source.old) (S.faults source.new) result }
    ensures written { CanBeWritten result }
    ensures unfailing { S.sure source.old → result ≢ Due.ReadFault }
    ensures read_whole { IsOfWholeDeck result → IsAtEnd (S.left source.new) }
{
    match read_all(alloc, source, MOST_DECK_BYTES) {
        Ok(bytes) => due_of_bytes(alloc, task, bytes.as_slice()),
        Err(SourceFault::Failed) => Due::ReadFault,
        Err(SourceFault::TooLong) => Due::DeckRefused(DeckFault::TooLong),
        Err(SourceFault::NoMemory(memory)) => Due::NoMemory(memory),
    }
}

fn due_of_bytes(alloc: Global, task: Task, bytes: &[u8]) -> Due
    ensures due { IsDueOfBytes task bytes.now result }
    ensures written { CanBeWritten result }
{
    match read_deck(alloc, bytes) {
        Ok(deck) => due_of_deck(alloc, task, deck),
        Err(fault) => due_of_fault(fault),
    }
}

pub(crate) fn due_of_fault(fault: DeckFault) -> Due
    ensures { result ≡ due_of_fault fault }
{
    match fault {
        DeckFault::NoMemory(memory) => Due::NoMemory(memory),
        fault => Due::DeckRefused(fault),
    }
}

fn due_of_deck(alloc: Global, task: Task, deck: Deck) -> Due
    requires { IsSpelt deck }
    ensures due { IsDueOfDeck task deck result }
    ensures written { CanBeWritten result }
{
    if !task.can_stop(&deck.site) {
        return Due::Usage;
    }
    due_of_programs(alloc, task, deck)
}

fn due_of_programs(alloc: Global, task: Task, deck: Deck) -> Due
    requires { IsSpelt deck }
    ensures due { IsDueOfPrograms task deck result }
    ensures written { CanBeWritten result }
{
    if !task.judges() {
        return due_of_task(alloc, task, deck);
    }
    an_accepted_deck_meets_the_premises();
    match first_refused(alloc, deck.site.processes.as_slice()) {
        Err(memory) => Due::NoMemory(memory),
        Ok(None) => due_of_task(alloc, task, deck),
        Ok(Some(found)) => {
            let Deck { site, lines: _ } = deck;
            Due::ProgramRefused(RefusedSite { site, found })
        }
    }
}

/// Does with a deck what is to be done, once its programs are judged, where they have to be.
fn due_of_task(alloc: Global, task: Task, deck: Deck) -> Due
    requires spelt { IsSpelt deck }
    requires accepted { judges task ≡ true → AreAccepted deck.site.processes }
    ensures due { IsDueOfTask task deck result }
    ensures written { CanBeWritten result }
{
    match task {
        Task::Run { tells, stop } => due_of_run(alloc, deck, stop, tells),
        Task::Check => {
            let Deck { site, lines: _ } = deck;
            Due::Accepted(site)
        }
        Task::Sweep { runs } => due_of_sweep(alloc, deck, runs),
        Task::Advise => due_of_advice(alloc, deck),
    }
}

fn due_of_advice(alloc: Global, deck: Deck) -> Due
    requires { IsSpelt deck }
    ensures due { IsDueOfAdvice deck result }
    ensures written { CanBeWritten result }
{
    an_accepted_deck_meets_the_premises();
    match advise_all(alloc, deck.site.processes.as_slice()) {
        Err(memory) => Due::NoMemory(memory),
        Ok(SiteAdvice::Given(pairs)) => {
            let Deck { site, lines: _ } = deck;
            Due::Advised(AdvisedSite { site, pairs })
        }
        Ok(SiteAdvice::Refused(found)) => {
            let Deck { site, lines: _ } = deck;
            Due::Unadvised(RefusedSite { site, found })
        }
    }
}

fn due_of_sweep(alloc: Global, deck: Deck, runs: u32) -> Due
    requires spelt { IsSpelt deck }
    requires accepted { AreAccepted deck.site.processes }
    ensures due { IsDueOfSweep deck runs result }
    ensures written { CanBeWritten result }
{
    match swept(alloc, deck, runs) {
        Err(memory) => Due::NoMemory(memory),
        Ok(table) => Due::Swept(table),
    }
}

fn due_of_run(alloc: Global, deck: Deck, stop: Option<ProcessorStop>, tells: Telling) -> Due
    requires spelt { IsSpelt deck }
    requires accepted { AreAccepted deck.site.processes }
    ensures due { IsDueOfRun deck stop tells result }
    ensures written { CanBeWritten result }
{
    match report_of(alloc, deck, stop, tells) {
        Err(memory) => Due::NoMemory(memory),
        Ok(report) => Due::Report(report),
    }
}

/// The report of a deck's run.
fn report_of(
    alloc: Global,
    deck: Deck,
    stop: Option<ProcessorStop>,
    tells: Telling,
) -> Result<Report, NoMemory>
    requires spelt { IsSpelt deck }
    requires accepted { AreAccepted deck.site.processes }
    ensures run { IfOk result (λ report. IsReportOf deck stop report) }
    ensures tells { IfOk result (λ report. report.tells ≡ tells) }
    ensures limits { IfOk result (λ report. KeepsSiteLimits report.site) }
{
    an_accepted_deck_meets_the_premises();
    a_run_of_an_accepted_site_keeps_possible_acts();
    let Deck { site, lines } = deck;
    let site = Shared::new(alloc, site)?;
    let run = RunEnd {
        ran: run(alloc, &site, lines.as_slice(), stop)?,
    };
    let sectors = sectors_after(alloc, site.get(), run.shown())?;
    let mirrors = mirrors_of(alloc, site.get(), &run.ran.machine)?;
    let stopped = stopped_processors(alloc, &run.ran.machine)?;
    Ok(Report {
        site,
        run,
        sectors,
        mirrors,
        stopped,
        tells,
    })
}
