ghost use Rattle.std.specs.Prelude.{◌≡◌, if◌then◌else◌};
ghost use Rattle.event_findings.specs.Steps as spec;
ghost use Rattle.event_findings.specs.Steps.{checkpoint_step, elsewhere_step, made, statement_at, statement_in, step_at};
ghost use Rattle.machine_views.specs.Views.{acting_of};
ghost use Rattle.process_semantics.specs.declared.point.Point.TheVariants as point;

use image_places::next_in;
use machine_views::{CopyView, acting_of};
use process_semantics::Point;
use tal_tree::{Kind, Program, Site};
use trace_lines::Finding;

/// The step of a process between the copies before it and after it.
pub(crate) fn step_found(
    site: &Site,
    process: u8,
    before: &[CopyView],
    after: &[CopyView],
) -> Option<Finding>
    ensures { result ≡ spec.step_found site.now process before.now after.now }
{
    match (
        acting_of(usize::from(process), before),
        acting_of(usize::from(process), after),
    ) {
        (Some(before), Some(after)) => Some(step_at(site, process, before, after)),
        (Some(_), None) => None,
        (None, _) => None,
    }
}

/// Where a process stands still that was to run.
pub(crate) fn still_of(process: u8, copies: &[CopyView]) -> Option<Finding>
    ensures { result ≡ spec.still_of (acting_of process copies.now) }
{
    match acting_of(usize::from(process), copies) {
        None => None,
        Some(copy) => Some(Finding::StandsStill(standing_point(copy))),
    }
}

/// The point as which a copy stands still: one that has sent a checkpoint stands as at its checkpoint.
fn standing_point(copy: &CopyView) -> Point
    ensures { result ≡ (if copy.now.sent then point.AtCheckpoint else copy.now.point) }
{
    if copy.sent {
        Point::AtCheckpoint
    } else {
        copy.point
    }
}

fn step_at(site: &Site, process: u8, before: &CopyView, after: &CopyView) -> Finding
    ensures { result ≡ step_at site.now process before.now after.now before.now.point }
{
    match before.point {
        Point::AtCheckpoint => checkpoint_step(after),
        Point::Inner => elsewhere_step(site, process, before, after),
        Point::Take => elsewhere_step(site, process, before, after),
        Point::Ask => elsewhere_step(site, process, before, after),
        Point::Await => elsewhere_step(site, process, before, after),
        Point::Answer => elsewhere_step(site, process, before, after),
        Point::Device => elsewhere_step(site, process, before, after),
        Point::Ended => elsewhere_step(site, process, before, after),
    }
}

/// Elsewhere than at its checkpoint a process ends one that it has sent, or sends one with everything, or goes on.
fn elsewhere_step(site: &Site, process: u8, before: &CopyView, after: &CopyView) -> Finding
    ensures { result ≡ elsewhere_step site.now process before.now after.now }
{
    if before.sent {
        Finding::EndsSending
    } else if before.renewal {
        Finding::SendsEverything(after.number)
    } else {
        made(process, before.point, statement_of(site, before))
    }
}

/// At its checkpoint a process sends it, or goes on behind it.
fn checkpoint_step(after: &CopyView) -> Finding
    ensures { result ≡ checkpoint_step after.now }
{
    if after.sent {
        Finding::SendsCheckpoint(after.number)
    } else {
        Finding::PassesCheckpoint
    }
}

fn made(process: u8, stood: Point, statement: Option<u16>) -> Finding
    ensures { result ≡ made process stood statement }
{
    match statement {
        None => Finding::DiscGoesOn(stood),
        Some(statement) => Finding::Makes { process, statement },
    }
}

/// The number of what a copy makes next in its program, if its image tells it.
pub(crate) fn statement_of(site: &Site, copy: &CopyView) -> Option<u16>
    ensures { result ≡ spec.statement_of site.now copy.now }
{
    match site.processes.get(usize::from(copy.process)) {
        None => None,
        Some(spec) => statement_in(&spec.what, copy),
    }
}

fn statement_in(what: &Kind, copy: &CopyView) -> Option<u16>
    ensures { result ≡ statement_in what.now copy.now }
{
    match what {
        Kind::Disc { .. } => None,
        Kind::Pair(program) => statement_at(program, copy),
    }
}

fn statement_at(program: &Program, copy: &CopyView) -> Option<u16>
    ensures { result ≡ statement_at program.now copy.now copy.now.point }
{
    match copy.point {
        Point::AtCheckpoint => None,
        Point::Ended => None,
        Point::Inner => Some(next_in(program, copy.state.as_slice())),
        Point::Take => Some(next_in(program, copy.state.as_slice())),
        Point::Ask => Some(next_in(program, copy.state.as_slice())),
        Point::Await => Some(next_in(program, copy.state.as_slice())),
        Point::Answer => Some(next_in(program, copy.state.as_slice())),
        Point::Device => Some(next_in(program, copy.state.as_slice())),
    }
}
