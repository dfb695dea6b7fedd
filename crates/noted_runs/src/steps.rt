ghost use Rattle.std.specs.Prelude.{◌≡◌, Some, IfOk};
ghost use Rattle.std.specs.Option.{option_copied, option_map};
ghost use Rattle.machine_views.specs.Views.{acting_in};
ghost use Rattle.machine_views.specs.processes.specs.Seen.{state_of};
ghost use Rattle.program_ends.specs.Ends.{end_of_program};
ghost use Rattle.noted_runs.specs.Steps.{end_of_kind, end_of_spec, everything_at_end, has_ended};
ghost use Rattle.noted_runs.specs.Steps.{is_inner, stood_at, stood_by, with_end};

use checkpoint_image::{Behaviour, Listed};
use gd_words::{List, NoMemory};
use machine_views::{Process, image_of_everything, is_acting};
use noted_rules::ProcessCopies;
use process_semantics::Point;
use program_ends::{LastStep, end_of_program};
use std::alloc::Global;
use tal_tree::{Kind, ProcessSpec, Program};
use world_semantics::Which;

/// Where a process stood before a step inside it: the words of its image with nothing listed, and whether it had a
/// request in hand.
#[derive(Drop)]
pub struct Stood {
    pub words: List<i16>,
    pub in_hand: bool,
}

/// The process of the copy that acts, if one does.
pub(crate) fn acting_of(place: &ProcessCopies) -> Option<&Process>
    ensures { option_map state_of (option_copied result) ≡ option_map (λ copy. copy.core.state)
        (acting_in place.now.pair) }
{
    if is_acting(place.role(Which::First)) {
        return Some(place.copy(Which::First).control().behaviour());
    }
    if is_acting(place.role(Which::Second)) {
        return Some(place.copy(Which::Second).control().behaviour());
    }
    None
}

/// Where a process stands, if its next step is inside it.
pub(crate) fn stood_at(alloc: Global, process: Option<&Process>) -> Result<Option<Stood>, NoMemory>
    ensures { IfOk result (λ stood. stood ≡ stood_by (option_map state_of (option_copied process.entry))) }
{
    match process {
        None => Ok(None),
        Some(process) => stood_inside(alloc, process),
    }
}

fn stood_inside(alloc: Global, process: &Process) -> Result<Option<Stood>, NoMemory>
    ensures { IfOk result (λ stood. stood ≡ stood_at (state_of process.now)) }
{
    if !is_inner(process.at()) {
        return Ok(None);
    }
    let nothing = Listed {
        items: List::new(alloc),
        files: List::new(alloc),
    };
    let words = process.image(alloc, &nothing)?;
    Ok(Some(Stood {
        words,
        in_hand: process.in_hand(),
    }))
}

fn is_inner(point: Point) -> bool
    ensures { result ≡ is_inner point }
{
    match point {
        Point::Inner => true,
        Point::Take => false,
        Point::Ask => false,
        Point::Await => false,
        Point::Answer => false,
        Point::AtCheckpoint => false,
        Point::Device => false,
        Point::Ended => false,
    }
}

/// The image with everything of a process, if it has ended.
pub(crate) fn everything_at_end(
    alloc: Global,
    process: Option<&Process>,
) -> Result<Option<List<i16>>, NoMemory>
    ensures { IfOk result (λ words. words
        ≡ everything_at_end (option_map state_of (option_copied process.entry))) }
{
    match process {
        None => Ok(None),
        Some(process) => everything_if_ended(alloc, process),
    }
}

fn everything_if_ended(alloc: Global, process: &Process) -> Result<Option<List<i16>>, NoMemory>
    ensures { IfOk result (λ words. words ≡ everything_at_end (Some (state_of process.now))) }
{
    if !has_ended(process.at()) {
        return Ok(None);
    }
    let words = image_of_everything(alloc, process)?;
    Ok(Some(words))
}

fn has_ended(point: Point) -> bool
    ensures { result ≡ has_ended point }
{
    match point {
        Point::Ended => true,
        Point::Inner => false,
        Point::Take => false,
        Point::Ask => false,
        Point::Await => false,
        Point::Answer => false,
        Point::AtCheckpoint => false,
        Point::Device => false,
    }
}

/// The step with which a process ended that stood so, by its image with everything at that end.
pub(crate) fn end_of_spec(
    alloc: Global,
    spec: Option<&ProcessSpec>,
    stood: Option<Stood>,
    everything: &[i16],
) -> Result<Option<LastStep>, NoMemory>
    ensures { IfOk result (λ step. step ≡ end_of_spec (option_copied spec.entry) stood everything.now) }
{
    match (spec, stood) {
        (Some(spec), Some(stood)) => end_of_kind(alloc, &spec.what, &stood, everything),
        (Some(_), None) => Ok(None),
        (None, _) => Ok(None),
    }
}

fn end_of_kind(
    alloc: Global,
    what: &Kind,
    stood: &Stood,
    everything: &[i16],
) -> Result<Option<LastStep>, NoMemory>
    ensures { IfOk result (λ step. step ≡ end_of_kind what.now stood.now everything.now) }
{
    match what {
        Kind::Disc { .. } => Ok(None),
        Kind::Pair(program) => end_of_stood(alloc, program, stood, everything),
    }
}

fn end_of_stood(
    alloc: Global,
    program: &Program,
    stood: &Stood,
    everything: &[i16],
) -> Result<Option<LastStep>, NoMemory>
    ensures { IfOk result (λ step. step
        ≡ Some (end_of_program program.now stood.now.words stood.now.in_hand everything.now)) }
{
    let words = stood.words.as_slice();
    let step = end_of_program(alloc, program, words, stood.in_hand, everything)?;
    Ok(Some(step))
}

/// Puts a step with which a process ended into its place.
pub(crate) fn put_end(steps: &mut List<Option<LastStep>>, process: usize, step: Option<LastStep>)
    ensures { steps.new ≡ with_end process step steps.old }
{
    match step {
        None => {}
        Some(step) => steps.set(process, Some(step)),
    }
}
