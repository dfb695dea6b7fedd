use crate::steps::{
    answer, ask, end, end_renewal, learn, pass, renew, repeat, send, take, take_over,
};
use crate::worded::words_of;
use change_layout::from_words;
use checkpoint_image::{Behaviour, ImageMessage};
use gd_words::NoMemory;
use process_control::CopyControl;
use std::alloc::Global;

/// What a copy does next, and what is seen of it.
#[derive(Clone, Copy)]
pub enum ScriptStep<'a> {
    /// Takes the request of this opener, number and word, which stands next.
    Take(u16, u32, i16),
    /// Sends its checkpoint, which has these words.
    Checkpoint(&'a [i16]),
    /// What was sent last comes: it applies it, or ignores it.
    Come(bool),
    /// A checkpoint comes as what changed, in these words: it applies it, or ignores it.
    ComeChanged(&'a [i16], bool),
    /// Learns that what it sent last was taken.
    Learn,
    /// Goes on after its checkpoint.
    Pass,
    /// Asks under this number, and gets its own word back, which is this one.
    Ask(u32, i16),
    /// Answers the request of this opener and number with this word.
    Answer(u16, u32, i16),
    /// Tells again to the request of this opener and number that its answer was this word.
    Repeat(u16, u32, i16),
    /// Takes over, into this era.
    TakeOver(u32),
    /// Is to send everything, in this era.
    Renew(u32),
    /// What it has sent elsewhere than at a checkpoint comes to its end.
    End,
    /// Needn't send everything any more, though it hasn't.
    EndRenewal,
}

/// Which of two copies makes a step.
#[derive(Clone, Copy)]
pub enum Turn<'a> {
    First(ScriptStep<'a>),
    Second(ScriptStep<'a>),
}

/// Two copies of a process, and what was sent last.
#[derive(Drop)]
pub struct Copies<B: Behaviour> {
    pub first: CopyControl<B>,
    pub second: CopyControl<B>,
    pub sent: Option<ImageMessage>,
}

/// Two copies make their steps, one by one, up to the first that isn't as it says; the answer is how many were.
pub fn play<B: Behaviour>(
    alloc: Global,
    copies: &mut Copies<B>,
    script: &[Turn<'_>],
) -> Result<usize, NoMemory> {
    for (made, turn) in script.iter().enumerate() {
        let is_so = match *turn {
            Turn::First(step) => play_step(alloc, &mut copies.first, &mut copies.sent, step)?,
            Turn::Second(step) => play_step(alloc, &mut copies.second, &mut copies.sent, step)?,
        };
        if !is_so {
            return Ok(made);
        }
    }
    Ok(script.len())
}

fn play_step<B: Behaviour>(
    alloc: Global,
    copy: &mut CopyControl<B>,
    sent: &mut Option<ImageMessage>,
    step: ScriptStep<'_>,
) -> Result<bool, NoMemory> {
    match step {
        ScriptStep::Take(opener, number, word) => take(alloc, copy, opener, number, word),
        ScriptStep::Checkpoint(words) => {
            *sent = send(alloc, copy)?;
            has_words(alloc, sent, words)
        }
        ScriptStep::Come(applies) => Ok(comes(copy, sent) == applies),
        ScriptStep::ComeChanged(words, applies) => {
            Ok(comes_changed(alloc, copy, words)? == Some(applies))
        }
        ScriptStep::Learn => Ok(learn(copy)),
        ScriptStep::Pass => Ok(pass(copy)),
        ScriptStep::Ask(number, word) => Ok(ask(copy, number, word)),
        ScriptStep::Answer(opener, number, word) => Ok(answer(copy, opener, number, word)),
        ScriptStep::Repeat(opener, number, word) => repeat(alloc, copy, opener, number, word),
        ScriptStep::TakeOver(era) => Ok(take_over(copy, era)),
        ScriptStep::Renew(era) => Ok(renew(copy, era)),
        ScriptStep::End => Ok(end(copy)),
        ScriptStep::EndRenewal => Ok(end_renewal(copy)),
    }
}

/// Whether a checkpoint was sent that has these words.
fn has_words(alloc: Global, sent: &Option<ImageMessage>, wanted: &[i16]) -> Result<bool, NoMemory> {
    match sent {
        None => Ok(false),
        Some(message) => match words_of(alloc, message)? {
            None => Ok(false),
            Some(words) => Ok(words.as_slice() == wanted),
        },
    }
}

/// Whether a copy applies what was sent last.
fn comes<B: Behaviour>(copy: &mut CopyControl<B>, sent: &Option<ImageMessage>) -> bool {
    match sent {
        None => false,
        Some(message) => copy.checkpoint_in(message),
    }
}

/// Whether a copy applies a checkpoint that comes as what changed, in these words; none where they are of no such one.
fn comes_changed<B: Behaviour>(
    alloc: Global,
    copy: &mut CopyControl<B>,
    words: &[i16],
) -> Result<Option<bool>, NoMemory> {
    match from_words(alloc, words)? {
        None => Ok(None),
        Some(change) => Ok(Some(copy.change_in(&change))),
    }
}
