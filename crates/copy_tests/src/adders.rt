use crate::scripts::ScriptStep::{
    Answer, Ask, Checkpoint, Come, ComeChanged, Learn, Pass, Repeat, Take, TakeOver,
};
use crate::scripts::Turn::{First, Second};
use crate::scripts::{Copies, Turn, play};
use crate::starting::{start_both, terminal};
use checkpoint_image::from_words;
use gd_words::{List, NoMemory};
use process_control::CopyControl;
use process_semantics::Point;
use processes::Process;
use std::alloc::Global;
use std::test::Fail;
use worked_programs::LOGGING_ADDER;
use world_semantics::Role;

/// The first checkpoint, with the word 5 in hand: the frame and three items, the number of the log, and two openers.
const FIRST_WORDS: &[i16] = &[
    3, 1, 0, 0, 0, 1, 10, 1, 0, 9, 3, 0, 5, 1, 1, 4, 5, 1, 1, 0, 1, 2, 0, 1, 0, 0, 0, 0, 0,
];

/// The second, with the word 7 in hand, and the reply 5 kept.
const SECOND_WORDS: &[i16] = &[
    3, 1, 0, 0, 0, 2, 10, 1, 0, 9, 3, 0, 12, 1, 1, 4, 12, 1, 1, 0, 2, 2, 0, 1, 1, 1, 5, 0, 1, 0, 1,
];

/// The second as what changed since the first: of the opener 0 the reply 5 was added, of the opener 1 a request taken.
const SECOND_CHANGE: &[i16] = &[
    7, 1, 0, 0, 0, 2, 10, 1, 0, 9, 3, 0, 12, 1, 1, 4, 12, 1, 1, 0, 2, 2, 1, 0, 1, 1, 5, 8, 0, 1, 1,
];

/// The first after the takeover, with the word 100 in hand, and the replies 5 and 12 kept.
const THIRD_WORDS: &[i16] = &[
    3, 1, 0, 1, 0, 1, 10, 1, 0, 9, 3, 0, 112, 1, 1, 4, 112, 1, 1, 0, 3, 2, 0, 2, 1, 1, 5, 0, 1, 1,
    1, 12, 0,
];

/// Two checkpoints are sent, and the first is carried.
const BEFORE: &[Turn<'static>] = &[
    First(Take(0, 1, 5)),
    First(Checkpoint(FIRST_WORDS)),
    Second(Come(true)),
    Second(Come(false)),
    First(Come(false)),
    First(Learn),
    First(Pass),
    First(Ask(1, 5)),
    First(Answer(0, 1, 5)),
    First(Repeat(0, 1, 5)),
    First(Take(1, 1, 7)),
    First(Checkpoint(SECOND_WORDS)),
];

/// The second is carried whole.
const COMES_WHOLE: &[Turn<'static>] = &[Second(Come(true)), Second(Come(false))];

/// The second is carried as what changed.
const COMES_CHANGED: &[Turn<'static>] = &[
    First(ComeChanged(SECOND_CHANGE, false)),
    Second(ComeChanged(SECOND_CHANGE, true)),
    Second(ComeChanged(SECOND_CHANGE, false)),
    Second(Come(false)),
];

/// The first copy goes on to its second question and stops, and the second copy goes on from the last checkpoint: it
/// tells the reply that the first copy gave, and asks again under the same number.
const TAKEOVER: &[Turn<'static>] = &[
    First(Learn),
    First(Pass),
    First(Ask(2, 12)),
    Second(TakeOver(1)),
    Second(Repeat(0, 1, 5)),
    Second(Ask(2, 12)),
    Second(Answer(1, 1, 12)),
    Second(Repeat(1, 1, 12)),
    Second(Take(0, 2, 100)),
    Second(Checkpoint(THIRD_WORDS)),
];

/// Two copies of the adder, which two terminals ask.
#[tactic(auto, using(crate::proofs::Openers::all_of_depth))]
fn adders(alloc: Global) -> Result<Copies<Process>, Fail> {
    start_both(alloc, LOGGING_ADDER, &[terminal(1); 2])
}

/// Whether a copy stands at the start of its process, in this role.
fn is_at_start(copy: &CopyControl<Process>, role: Role) -> bool {
    copy.role() == role
        && copy.era() == 0
        && copy.number() == 0
        && !copy.sent()
        && !copy.acknowledged()
        && copy.point() == Point::Inner
        && copy.in_hand() == None
        && copy.next_on(1) == 1
}

#[test]
fn copies_start_at_the_start_of_their_process(rt: HostRuntime) -> Result<(), Fail> {
    let copies = adders(rt.alloc())?;
    assert!(rt; is_at_start(&copies.first, Role::Acting));
    assert!(rt; is_at_start(&copies.second, Role::Watching));
    Ok(())
}

/// Whether the second copy goes on from the last checkpoint, where that comes so.
fn goes_on(alloc: Global, coming: &[Turn<'_>]) -> Result<bool, Fail> {
    let mut copies = adders(alloc)?;
    let before = play(alloc, &mut copies, BEFORE)?;
    let came = play(alloc, &mut copies, coming)?;
    let after = play(alloc, &mut copies, TAKEOVER)?;
    Ok(before == BEFORE.len() && came == coming.len() && after == TAKEOVER.len())
}

#[test]
fn a_copy_goes_on_from_the_last_checkpoint(rt: HostRuntime) -> Result<(), Fail> {
    let goes_on = goes_on(rt.alloc(), COMES_WHOLE)?;
    assert!(rt; goes_on);
    Ok(())
}

#[test]
fn a_copy_goes_on_from_what_changed(rt: HostRuntime) -> Result<(), Fail> {
    let goes_on = goes_on(rt.alloc(), COMES_CHANGED)?;
    assert!(rt; goes_on);
    Ok(())
}

/// Whether a copy applies the first checkpoint with the word at this place changed.
fn applies_changed(
    alloc: Global,
    copy: &mut CopyControl<Process>,
    place: usize,
    word: i16,
) -> Result<Option<bool>, NoMemory> {
    let mut words = List::new(alloc);
    words.extend_from_slice(FIRST_WORDS)?;
    words.set(place, word);
    match from_words(alloc, words.as_slice())? {
        None => Ok(None),
        Some(message) => Ok(Some(copy.checkpoint_in(&message))),
    }
}

/// How many of these changes of the first checkpoint, of a word at a place, a copy applies.
fn applied_of(
    alloc: Global,
    copy: &mut CopyControl<Process>,
    changes: &[(usize, i16)],
) -> Result<usize, NoMemory> {
    let mut applied: usize = 0;
    for (place, word) in changes {
        if applies_changed(alloc, copy, *place, *word)? == Some(true) {
            applied = applied.saturating_add(1);
        }
    }
    Ok(applied)
}

/// Another era, two other numbers, a frame more, a file that isn't there, and in hand of no opener.
const CHANGES: &[(usize, i16)] = &[(3, 1), (5, 0), (5, 2), (7, 2), (18, 2), (28, 2)];

/// The first word, which stays as it is.
const NO_CHANGE: &[(usize, i16)] = &[(0, 3)];

#[test]
fn what_is_not_next_or_does_not_fit_is_ignored(rt: HostRuntime) -> Result<(), Fail> {
    let mut copies = adders(rt.alloc())?;
    let applied = applied_of(rt.alloc(), &mut copies.second, CHANGES)?;
    assert_eq!(rt; applied, 0);
    let applied = applied_of(rt.alloc(), &mut copies.second, NO_CHANGE)?;
    assert_eq!(rt; applied, 1);
    Ok(())
}
