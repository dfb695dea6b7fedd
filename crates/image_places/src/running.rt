ghost use Rattle.std.specs.Prelude.{◌≡◌, None};
ghost use Rattle.process_semantics.specs.Words.{count_in, words_in};
ghost use Rattle.image_places.specs.Running.{Gives, caller_in, frame_in, frame_of, last_of};
ghost use Rattle.image_places.specs.Running.{next_in, running_in, running_now};

use tal_tree::{Procedure, Program};

/// A procedure that runs: its number, the number of what comes next in it, 0 at its end, and its locals.
#[derive(Clone, Copy)]
pub struct RunningFrame<'a> {
    pub procedure: u16,
    pub next: u16,
    pub locals: &'a [i16],
}

/// The procedure that runs in a program, by the words of its image, and the words behind those of the frames. None
/// where the words are no image of the program, or it has ended.
pub fn running_in<'a>(program: &Program, words: &'a [i16]) -> Option<(RunningFrame<'a>, &'a [i16])>
    ensures { Gives (λ r. (running_now r.0, r.1.now)) result (running_in program.now words.now) }
{
    let (count, left) = number_in(words)?;
    last_of(program, count, left)
}

/// The number of what comes next in the procedure that runs in a program, by the words of its image; 0 at its end, and
/// where no procedure runs.
pub fn next_in(program: &Program, words: &[i16]) -> u16
    ensures { result ≡ next_in program.now words.now }
{
    match running_in(program, words) {
        None => 0,
        Some((frame, _)) => frame.next,
    }
}

/// The procedure that has called the one that runs in a program, by the words of its image, and the words behind its
/// own. None where MAIN runs, the words are no image of the program, or it has ended.
pub fn caller_in<'a>(program: &Program, words: &'a [i16]) -> Option<(RunningFrame<'a>, &'a [i16])>
    ensures { Gives (λ r. (running_now r.0, r.1.now)) result (caller_in program.now words.now) }
{
    let (count, left) = number_in(words)?;
    last_of(program, count.saturating_sub(1), left)
}

/// The last of so many frames, and the words behind it.
fn last_of<'a>(
    program: &Program,
    count: u16,
    words: &'a [i16],
) -> Option<(RunningFrame<'a>, &'a [i16])>
    ensures { Gives (λ r. (running_now r.0, r.1.now)) result (last_of program.now count words.now None) }
{
    let mut last = None;
    let mut left = words;
    for _ in 0..count {
        let (frame, rest) = frame_in(program, left)?;
        last = Some(frame);
        left = rest;
    }
    let frame = last?;
    Some((frame, left))
}

fn frame_in<'a>(program: &Program, words: &'a [i16]) -> Option<(RunningFrame<'a>, &'a [i16])>
    ensures { Gives (λ r. (running_now r.0, r.1.now)) result (frame_in program.now words.now) }
{
    let (procedure, left) = number_in(words)?;
    let (next, left) = number_in(left)?;
    let body = program.procedures.get(usize::from(procedure))?;
    frame_of(procedure, next, body, left)
}

/// The frame of a procedure, whose locals these words begin with.
fn frame_of<'a>(
    procedure: u16,
    next: u16,
    body: &Procedure,
    words: &'a [i16],
) -> Option<(RunningFrame<'a>, &'a [i16])>
    ensures { Gives (λ r. (running_now r.0, r.1.now)) result (frame_of procedure next body.now words.now) }
{
    let (locals, rest) = words_in(body.locals.len(), words)?;
    Some((
        RunningFrame {
            procedure,
            next,
            locals,
        },
        rest,
    ))
}

/// A number that isn't below 0.
pub(crate) fn number_in(words: &[i16]) -> Option<(u16, &[i16])>
    ensures { Gives (λ r. (r.0, r.1.now)) result (count_in words.now) }
{
    match words {
        [word, rest @ ..] if 0 <= *word => Some((word.cast_unsigned(), rest)),
        _ => None,
    }
}

/// The first `count` words, and those behind them. None if there are fewer.
pub(crate) fn words_in(count: usize, words: &[i16]) -> Option<(&[i16], &[i16])>
    ensures { Gives (λ r. (r.0.now, r.1.now)) result (words_in count words.now) }
{
    if count <= words.len() {
        Some(words.split_at(count))
    } else {
        None
    }
}
