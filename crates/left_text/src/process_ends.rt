ghost use Rattle.std.specs.Prelude.{◌≡◌, ◌≤◌, ◌++◌, length, OnOk};
ghost use Rattle.left_text.specs.LeftText.{awaiting_text, checked_text, count_text, ended_text, line_of_end};
ghost use Rattle.left_text.specs.LeftText.{line_of_step, line_shown, name_at, place_text, plain_text, process_line};
ghost use Rattle.left_text.specs.LeftText.{process_lines, server_name, stand_text, step_text, waiting_text};
ghost use Rattle.gd_words.specs.declared.limits.TheConstants.{MOST_DECK_BYTES};

use crate::reasons::put_after;
use finding_text::{pair_line, put_place_line};
use gd_words::{List, Name, NoMemory};
use left_findings::{ProcessLeft, Stand};
use program_ends::LastStep;
use tal_tree::ProcessSpec;
use text_pieces::{put, put_number};

/// Puts what is left of each of these processes, which stand among all, behind the text.
pub(crate) fn put_processes(
    text: &mut List<u8>,
    bytes: &[u8],
    all: &[ProcessSpec],
    specs: &[ProcessSpec],
    lefts: &[ProcessLeft],
    steps: &[Option<LastStep>],
) -> Result<(), NoMemory>
    requires { length bytes.now ≤ MOST_DECK_BYTES }
    ensures { OnOk result (text.new ≡ text.old ++ process_lines bytes.now all.now specs.now lefts.now steps.now) }
{
    let mut specs_left = specs;
    let mut lefts_left = lefts;
    let mut steps_left = steps;
    while let Some((spec, later_specs)) = specs_left.split_first() {
        let Some((left, later_lefts)) = lefts_left.split_first() else {
            return Ok(());
        };
        let Some((step, later_steps)) = steps_left.split_first() else {
            return Ok(());
        };
        put_process(text, bytes, all, &spec.name, *left, *step)?;
        specs_left = later_specs;
        lefts_left = later_lefts;
        steps_left = later_steps;
    }
    Ok(())
}

fn put_process(
    text: &mut List<u8>,
    bytes: &[u8],
    all: &[ProcessSpec],
    name: &Name,
    left: ProcessLeft,
    step: Option<LastStep>,
) -> Result<(), NoMemory>
    requires { length bytes.now ≤ MOST_DECK_BYTES }
    ensures { OnOk result (text.new ≡ text.old ++ process_line bytes.now all.now name.now left step) }
{
    put(text, name.text())?;
    put_stand(text, server_name(all, left.server), step, left.stand)?;
    put_line_of(text, bytes, name, line_shown(step, left.stand, left.line))?;
    put_after(text, step, left.in_hand, left.stand)?;
    put_waiting(text, left.waiting)
}

/// Puts behind the text how many requests wait for a process, if any does.
fn put_waiting(text: &mut List<u8>, count: usize) -> Result<(), NoMemory>
    ensures { OnOk result (text.new ≡ text.old ++ waiting_text count) }
{
    if count == 0 {
        return Ok(());
    }
    put_count(text, count)
}

fn put_count(text: &mut List<u8>, count: usize) -> Result<(), NoMemory>
    ensures { OnOk result (text.new ≡ text.old ++ count_text count) }
{
    put(text, b"         requests that wait for it: ")?;
    put_number(text, count as u64)?;
    put(text, b"\n")
}

/// Puts the line of the deck behind the text at which the pair of this name stands, by that of its program's text.
fn put_line_of(
    text: &mut List<u8>,
    bytes: &[u8],
    name: &Name,
    line: Option<u32>,
) -> Result<(), NoMemory>
    requires { length bytes.now ≤ MOST_DECK_BYTES }
    ensures { OnOk result (text.new ≡ text.old ++ place_text bytes.now name.now line) }
{
    match line {
        None => Ok(()),
        Some(line) => put_place_line(text, bytes, pair_line(bytes, name) + u64::from(line)),
    }
}

/// The name of the process of a number; nothing where there is none.
fn server_name(all: &[ProcessSpec], server: Option<usize>) -> &[u8]
    ensures { result.now ≡ server_name all.now server }
{
    match server {
        None => b"",
        Some(number) => name_at(all, number),
    }
}

pub(crate) fn name_at(all: &[ProcessSpec], number: usize) -> &[u8]
    ensures { result.now ≡ name_at all.now number }
{
    match all.get(number) {
        None => b"",
        Some(spec) => spec.name.text(),
    }
}

fn put_stand(
    text: &mut List<u8>,
    server: &[u8],
    step: Option<LastStep>,
    stand: Stand,
) -> Result<(), NoMemory>
    ensures { OnOk result (text.new ≡ text.old ++ stand_text server.now step stand) }
{
    match stand {
        Stand::AtAwait(awaited) => put_awaiting(text, server, awaited.number),
        Stand::AtAcknowledgement(number) => put_checked(text, number),
        Stand::AtTakeover => put(text, plain_text(stand)),
        Stand::Ended => put(text, ended_text(step)),
        Stand::AtTake => put(text, plain_text(stand)),
        Stand::CanStep => put(text, plain_text(stand)),
    }
}

/// What is told of a process that stands so, where neither a number is told nor an end.
fn plain_text(stand: Stand) -> &'static [u8]
    ensures { result.now ≡ plain_text stand }
{
    match stand {
        Stand::AtTakeover => b" waits until its backup takes over\n",
        Stand::AtTake => b" waits for a request\n",
        Stand::CanStep => b" waits for nothing: it could go on\n",
        Stand::Ended => b"",
        Stand::AtAwait(_) => b"",
        Stand::AtAcknowledgement(_) => b"",
    }
}

/// What is told of a process that ended, with this step if that is known.
fn ended_text(step: Option<LastStep>) -> &'static [u8]
    ensures { result.now ≡ ended_text step }
{
    match step {
        None => b" has ended\n",
        Some(step) => step_text(step),
    }
}

fn step_text(step: LastStep) -> &'static [u8]
    ensures { result.now ≡ step_text step }
{
    match step {
        LastStep::MainEnded => b" has ended: its MAIN came to its end\n",
        LastStep::Stopped(_) => b" has ended by STOP:\n",
        LastStep::Returned(_) => b" has ended with the RETURN of its MAIN:\n",
        LastStep::Trapped { line: _, trap: _ } => b" has ended by a trap of this statement:\n",
        LastStep::TrappedAtEnd(_) => {
            b" has ended by a trap: a procedure came to its end, and its word goes to an element that isn't there:\n"
        }
    }
}

/// The line of the program's text that is shown.
fn line_shown(step: Option<LastStep>, stand: Stand, line: Option<u32>) -> Option<u32>
    ensures { result ≡ line_shown step stand line }
{
    match stand {
        Stand::Ended => line_of_end(step),
        Stand::AtAwait(_) => line,
        Stand::AtAcknowledgement(_) => line,
        Stand::AtTakeover => line,
        Stand::AtTake => line,
        Stand::CanStep => line,
    }
}

fn line_of_end(step: Option<LastStep>) -> Option<u32>
    ensures { result ≡ line_of_end step }
{
    line_of_step(step?)
}

fn line_of_step(step: LastStep) -> Option<u32>
    ensures { result ≡ line_of_step step }
{
    match step {
        LastStep::MainEnded => None,
        LastStep::Stopped(line) => Some(line),
        LastStep::Returned(line) => Some(line),
        LastStep::Trapped { line, trap: _ } => Some(line),
        LastStep::TrappedAtEnd(target) => target.line,
    }
}

fn put_awaiting(text: &mut List<u8>, server: &[u8], number: u32) -> Result<(), NoMemory>
    ensures { OnOk result (text.new ≡ text.old ++ awaiting_text server.now number) }
{
    put(text, b" waits for the reply to request ")?;
    put_number(text, u64::from(number))?;
    put(text, b", which it asked of ")?;
    put(text, server)?;
    put(text, b"\n")
}

fn put_checked(text: &mut List<u8>, number: u32) -> Result<(), NoMemory>
    ensures { OnOk result (text.new ≡ text.old ++ checked_text number) }
{
    put(text, b" waits until its backup acknowledges checkpoint ")?;
    put_number(text, u64::from(number))?;
    put(text, b"\n")
}
