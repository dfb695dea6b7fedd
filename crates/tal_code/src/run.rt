ghost use Rattle.std.specs.Prelude.{◌≡◌, length};
ghost use Rattle.tal_values.specs.Seen.{memory_now};
ghost use Rattle.tal_code.specs.Words.{one_word, words_after_all};
ghost use Rattle.tal_code.specs.Parts.{Shows, built};
ghost use Rattle.tal_code.specs.Room.{IsLow, RoomFrom};

use crate::stack::Stack;
use crate::step::Instruction;
use crate::work::{light_word, word, work};
use tal_values::Memory;

/// The word that steps leave on top, from no words on.
pub fn run(memory: Memory<'_>, steps: &[Instruction]) -> Option<i16>
    requires { IsLow steps.now }
    ensures { Shows (memory_now memory.entry) (built steps.now).top result }
{
    match steps.split_first() {
        None => None,
        Some((first, rest)) => match *first {
            Instruction::Load(operand) => run_light(memory, word(memory, operand), rest),
            _ => run_all(memory, steps),
        },
    }
}

// Most code needs no stack, and a stack costs its clearing: so it is made where a step needs it.
fn run_light(memory: Memory<'_>, first: Option<i16>, steps: &[Instruction]) -> Option<i16>
    requires { RoomFrom 1 steps.now }
    ensures { result ≡ (words_after_all (memory_now memory.entry) steps.now (one_word first)).top }
{
    let mut top = first;
    let mut left = steps;
    for step in steps {
        match light_word(memory, *step, top) {
            None => return run_deep(memory, top, left),
            Some(word) => {
                top = word;
                let Some((_, rest)) = left.split_first() else {
                    return top;
                };
                left = rest;
            }
        }
    }
    top
}

/// Goes on with a stack.
fn run_deep(memory: Memory<'_>, top: Option<i16>, steps: &[Instruction]) -> Option<i16>
    requires { RoomFrom 1 steps.now }
    ensures { result ≡ (words_after_all (memory_now memory.entry) steps.now (one_word top)).top }
{
    let mut stack = Stack::new();
    stack.push(top);
    go_through(memory, steps, &mut stack);
    stack.top()
}

/// Runs steps with a stack, whatever they begin with.
fn run_all(memory: Memory<'_>, steps: &[Instruction]) -> Option<i16>
    requires { IsLow steps.now }
    ensures { Shows (memory_now memory.entry) (built steps.now).top result }
{
    let mut stack = Stack::new();
    go_through(memory, steps, &mut stack);
    stack.top()
}

fn go_through(memory: Memory<'_>, steps: &[Instruction], stack: &mut Stack)
    requires { RoomFrom (length stack.old.below) steps.now }
    ensures { stack.new ≡ words_after_all (memory_now memory.entry) steps.now stack.old }
{
    for step in steps {
        work(memory, *step, stack);
    }
}
