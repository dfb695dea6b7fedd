ghost use Rattle.std.specs.Prelude.{◌≡◌, ◌≤◌, length, IfOk};
ghost use Rattle.deck_lines.specs.Lines.{lines_of};
ghost use Rattle.deck_reader.specs.Outlined.{unended, at_end, outline_of};
ghost use Rattle.gd_words.specs.declared.limits.TheConstants.{MOST_DECK_BYTES};

use crate::line_fault::LineFault;
use crate::outline::{Heading, Outline};
use crate::step::{Breach, LineOutcome, Stage, broken, broken_at_start, next_stage};
use deck_lines::next_line;
use gd_words::NoMemory;
use std::alloc::Global;

/// What all lines say together.
#[derive(Drop)]
pub enum Told {
    Whole(Outline),
    Broken(Breach),
}

/// What the lines of a text say together.
pub fn outline_of(alloc: Global, bytes: &[u8]) -> Result<Told, NoMemory>
    requires short { length bytes.now ≤ MOST_DECK_BYTES }
    ensures { IfOk result (λ told. told ≡ outline_of (lines_of bytes.now)) }
{
    let mut stage = Stage::Opening;
    let mut text = bytes;
    let mut number = 0;
    while let Some((line, rest)) = next_line(text) {
        number += 1;
        match next_stage(alloc, stage, number, line)? {
            LineOutcome::Broken(breach) => return Ok(Told::Broken(breach)),
            LineOutcome::Next(next) => stage = next,
        }
        text = rest;
    }
    Ok(at_end(alloc, stage, number))
}

/// What all lines say, where there are so many.
fn at_end(alloc: Global, stage: Stage, count: u32) -> Told
    ensures { result ≡ at_end stage count }
{
    match stage {
        Stage::Opening => Told::Broken(broken_at_start(alloc, count, LineFault::NoEnd)),
        Stage::Blocks(outline) => Told::Broken(broken(outline, count, LineFault::NoEnd)),
        Stage::Program(outline, heading, program) => {
            unended(outline, heading, program.line, count)
        }
        Stage::Requests(outline, _, _) => Told::Broken(broken(outline, count, LineFault::NoEnd)),
        Stage::Schedule(outline) => Told::Broken(broken(outline, count, LineFault::NoEnd)),
        Stage::Ended(outline) => Told::Whole(outline),
    }
}

/// What all lines say if the text ends inside a program: the fault of its pair's line, else that END is missing.
fn unended(outline: Outline, heading: Result<Heading, LineFault>, line: u32, count: u32) -> Told
    ensures { result ≡ unended outline heading line count }
{
    match heading {
        Err(why) => Told::Broken(broken(outline, line, why)),
        Ok(_) => Told::Broken(broken(outline, count, LineFault::NoEnd)),
    }
}
