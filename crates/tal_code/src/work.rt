ghost use Rattle.std.specs.Prelude.{◌≡◌, length};
ghost use Rattle.tal_values.specs.Seen.{memory_now};
ghost use Rattle.tal_values.specs.Value.{value_of};
ghost use Rattle.tal_code.specs.Words.{operand_expr, element_word, truth_word, compared_word, not_word, and_word};
ghost use Rattle.tal_code.specs.Words.{or_word, as_word, words_after, light_word};
ghost use Rattle.tal_code.specs.Room.{IsRoom};

use crate::stack::Stack;
use crate::step::{Instruction, Operand};
use tal_tree::Rel;
use tal_values::operators::{applied, element, holds, negated};
use tal_values::{Cell, Memory};

/// Makes one step of code.
pub fn work(memory: Memory<'_>, step: Instruction, stack: &mut Stack)
    requires { IsRoom step (length stack.old.below) }
    ensures { stack.new ≡ words_after (memory_now memory.entry) step stack.old }
{
    match step {
        Instruction::Load(operand) => stack.push(word(memory, operand)),
        Instruction::With(op, operand) => stack.set_top(applied(
            op,
            stack.top(),
            word(memory, operand),
        )),
        Instruction::Two(op) => {
            let left = stack.take_below();
            stack.set_top(applied(op, left, stack.top()));
        }
        Instruction::Minus => stack.set_top(negated(stack.top())),
        Instruction::Element(item) => stack.set_top(element_word(memory, item, stack.top())),
        Instruction::Truth => stack.set_top(truth_word(stack.top())),
        Instruction::CompareWith(rel, operand) => {
            stack.set_top(compared(rel, stack.top(), word(memory, operand)));
        }
        Instruction::Compare(rel) => {
            let left = stack.take_below();
            stack.set_top(compared(rel, left, stack.top()));
        }
        Instruction::Not => stack.set_top(not_word(stack.top())),
        Instruction::And => {
            let left = stack.take_below();
            stack.set_top(and_word(left, stack.top()));
        }
        Instruction::Or => {
            let left = stack.take_below();
            stack.set_top(or_word(left, stack.top()));
        }
    }
}

/// The word on top after a step that needs no stack.
pub fn light_word(memory: Memory<'_>, step: Instruction, top: Option<i16>) -> Option<Option<i16>>
    ensures { result ≡ light_word (memory_now memory.entry) step top }
{
    match step {
        Instruction::With(op, operand) => Some(applied(op, top, word(memory, operand))),
        Instruction::Minus => Some(negated(top)),
        Instruction::Element(item) => Some(element_word(memory, item, top)),
        Instruction::Truth => Some(truth_word(top)),
        Instruction::CompareWith(rel, operand) => Some(compared(rel, top, word(memory, operand))),
        Instruction::Not => Some(not_word(top)),
        _ => None,
    }
}

/// The word of an operand.
pub fn word(memory: Memory<'_>, operand: Operand) -> Option<i16>
    ensures { result ≡ value_of (memory_now memory.entry) (operand_expr operand) }
{
    match operand {
        Operand::Number(word) => Some(word),
        Operand::Local(place) => memory.word(Cell::Local(place)),
        Operand::Simple(item) => memory.word(Cell::Global { item, offset: 0 }),
    }
}

/// The word of the element of an item at an index.
fn element_word(memory: Memory<'_>, item: u16, index: Option<i16>) -> Option<i16>
    ensures { result ≡ element_word (memory_now memory.entry) item index }
{
    let cell = element(memory, item, index)?;
    memory.word(cell)
}

fn as_word(truth: bool) -> i16
    ensures { result ≡ as_word truth }
{
    if truth { 1 } else { 0 }
}

fn truth_word(word: Option<i16>) -> Option<i16>
    ensures { result ≡ truth_word word }
{
    let word = word?;
    Some(as_word(word != 0))
}

fn not_word(word: Option<i16>) -> Option<i16>
    ensures { result ≡ not_word word }
{
    let word = word?;
    Some(as_word(word == 0))
}

fn and_word(left: Option<i16>, right: Option<i16>) -> Option<i16>
    ensures { result ≡ and_word left right }
{
    let left = left?;
    if left == 0 { Some(0) } else { right }
}

fn or_word(left: Option<i16>, right: Option<i16>) -> Option<i16>
    ensures { result ≡ or_word left right }
{
    let left = left?;
    if left == 0 { right } else { Some(1) }
}

fn compared(rel: Rel, left: Option<i16>, right: Option<i16>) -> Option<i16>
    ensures { result ≡ compared_word rel left right }
{
    let left = left?;
    let right = right?;
    Some(as_word(holds(rel, left, right)))
}
