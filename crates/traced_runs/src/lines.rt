ghost use Rattle.std.specs.Prelude.{◌≡◌, false, IfErr, IfOk};
ghost use Rattle.event_findings.specs.Told.{found, shown_after};
ghost use Rattle.packet_runs.specs.Runs.{packet_rules};
ghost use Rattle.schedule_loop.specs.Ends.{IsTriedBy};
ghost use Rattle.packet_runs.specs.site_machine.specs.Needs.{IsReady};
ghost use Rattle.trace_forms.specs.Forms.{line_in};
ghost use Rattle.traced_runs.specs.Trace.{ending_of, line_told, told_line};
ghost use Rattle.traced_runs.specs.Traces.{IsWantOfMemory, Tells};

use crate::fault::TraceFault;
use crate::manner::Manner;
use event_findings::{Noted, findings, note, shown_since, what_is_found_is_told};
use gd_io::{Sink, put_all};
use gd_words::{List, NoMemory};
use machine_states::Effect;
use packet_runs::Machine;
use schedule::Event;
use schedule_loop::Ending;
use std::alloc::Global;
use tal_tree::Site;
use trace_forms::{Form, put_line};
use trace_lines::{EventTold, Places};

/// An event that a schedule asks for, with its number from 1.
#[derive(Clone, Copy)]
pub(crate) struct Asked {
    pub(crate) number: u32,
    pub(crate) event: Event,
}

/// Plays an event, and writes its line where its number is within the span. Answers how the run ends before the
/// event, where that would do harm, and then nothing changes.
pub(crate) fn tried_and_told<K: Sink>(
    alloc: Global,
    site: &Site,
    places: &Places,
    manner: Manner,
    asked: Asked,
    machine: &mut Machine,
    sink: &mut K,
) -> Result<Option<Ending>, TraceFault>
    requires { IsReady machine.old.state }
    ensures tried { IfOk result (λ ending. IsTriedBy packet_rules machine.old.state asked.event machine.new.state
        ending) }
    ensures whole { IfOk result (λ ending. machine.new.is_broken ≡ false) }
    ensures told { Tells K.held K.faults K.sure sink.old sink.new
        (line_told site.now places.now manner asked.number machine.old.state asked.event) result }
{
    if !manner.span.has(asked.number) {
        return untold(machine, asked.event);
    }
    told(alloc, site, places, manner.form, asked, machine, sink)
}

/// Plays an event whose line isn't within the span.
fn untold(machine: &mut Machine, event: Event) -> Result<Option<Ending>, TraceFault>
    requires { IsReady machine.old.state }
    ensures tried { IfOk result (λ ending. IsTriedBy packet_rules machine.old.state event machine.new.state ending) }
    ensures whole { IfOk result (λ ending. machine.new.is_broken ≡ false) }
    ensures fault { IfErr result IsWantOfMemory }
{
    match machine.event(event) {
        Ok(effect) => Ok(ending_of(effect)),
        Err(memory) => Err(TraceFault::NoMemory(memory)),
    }
}

/// Plays an event, and writes its line in this form.
fn told<K: Sink>(
    alloc: Global,
    site: &Site,
    places: &Places,
    form: Form,
    asked: Asked,
    machine: &mut Machine,
    sink: &mut K,
) -> Result<Option<Ending>, TraceFault>
    requires { IsReady machine.old.state }
    ensures tried { IfOk result (λ ending. IsTriedBy packet_rules machine.old.state asked.event machine.new.state
        ending) }
    ensures whole { IfOk result (λ ending. machine.new.is_broken ≡ false) }
    ensures told { Tells K.held K.faults K.sure sink.old sink.new
        (told_line form site.now places.now asked.number machine.old.state asked.event) result }
{
    match played_line(alloc, site, places, form, asked, machine) {
        Ok(played) => put_played(sink, played),
        Err(memory) => Err(TraceFault::NoMemory(memory)),
    }
}

/// Writes the line of an event that was played, and answers how the run ends before it, where it does.
fn put_played<K: Sink>(sink: &mut K, played: PlayedLine) -> Result<Option<Ending>, TraceFault>
    ensures ending { IfOk result (λ ending. ending ≡ played.ending) }
    ensures told { Tells K.held K.faults K.sure sink.old sink.new played.line result }
{
    match put_all(sink, played.line.as_slice()) {
        Ok(()) => Ok(played.ending),
        Err(fault) => Err(TraceFault::Write(fault)),
    }
}

/// How a run ends before an event that has this answer, where it does.
pub fn ending_of(effect: Effect) -> Option<Ending>
    ensures { result ≡ ending_of effect }
{
    match effect {
        Effect::Done => None,
        Effect::Skipped => None,
        Effect::WouldStopSecond(processor) => Some(Ending::Second(processor)),
        Effect::WouldLoseDisc(process) => Some(Ending::Lost(process)),
    }
}

/// How the run ends before an event, where it does, and the event's line.
#[derive(Drop)]
struct PlayedLine {
    ending: Option<Ending>,
    line: List<u8>,
}

/// Plays an event, and puts its line in this form together.
fn played_line(
    alloc: Global,
    site: &Site,
    places: &Places,
    form: Form,
    asked: Asked,
    machine: &mut Machine,
) -> Result<PlayedLine, NoMemory>
    requires { IsReady machine.old.state }
    ensures tried { IfOk result (λ played. IsTriedBy packet_rules machine.old.state asked.event machine.new.state
        played.ending) }
    ensures whole { IfOk result (λ played. machine.new.is_broken ≡ false) }
    ensures line { IfOk result (λ played. played.line
        ≡ told_line form site.now places.now asked.number machine.old.state asked.event) }
{
    what_is_found_is_told();
    let noted = note(alloc, machine, asked.event)?;
    let effect = machine.event(asked.event)?;
    let line = line_of(alloc, site, places, form, asked, &noted, effect, machine)?;
    Ok(PlayedLine {
        ending: ending_of(effect),
        line,
    })
}

/// The line of an event that has this answer, by what was noted before it and the machine after it.
fn line_of(
    alloc: Global,
    site: &Site,
    places: &Places,
    form: Form,
    asked: Asked,
    noted: &Noted,
    effect: Effect,
    machine: &Machine,
) -> Result<List<u8>, NoMemory>
    ensures { IfOk result (λ line. line ≡ line_in form site.now places.now asked.number asked.event
        (found site.now noted.now asked.event effect machine.now.state) (shown_after noted.now machine.now.state)) }
{
    let found = findings(alloc, site, noted, asked.event, effect, machine)?;
    let mut line = List::new(alloc);
    let told = EventTold {
        number: u64::from(asked.number),
        event: asked.event,
        findings: found.as_slice(),
        shown: shown_since(noted, machine),
    };
    put_line(alloc, &mut line, form, site, places, told)?;
    Ok(line)
}
