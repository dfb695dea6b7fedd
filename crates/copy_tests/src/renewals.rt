use crate::scripts::ScriptStep::{
    Answer, Ask, Checkpoint, Come, End, EndRenewal, Learn, Pass, Renew, Repeat, Take, TakeOver,
};
use crate::scripts::Turn::{First, Second};
use crate::scripts::{Copies, Turn, play};
use crate::starting::{start_with_blank, terminal};
use process_semantics::Point;
use processes::Process;
use std::alloc::Global;
use std::test::Fail;
use worked_programs::{LOGGING_ADDER, RARELY_NAMING_ADDER};
use world_semantics::Role;

/// Its first checkpoint, with the word 5 in hand: the frame and the total, no file, and two openers.
const NAMED_WORDS: &[i16] = &[
    3, 1, 0, 0, 0, 1, 6, 1, 0, 9, 1, 0, 5, 0, 2, 0, 1, 0, 0, 0, 0, 0,
];

/// Everything at that checkpoint, in the era 1: the three items that have words, and the number of the log.
const EVERYTHING_WORDS: &[i16] = &[
    3, 1, 0, 1, 0, 1, 10, 1, 0, 9, 3, 0, 5, 1, 1, 4, 5, 1, 1, 0, 1, 2, 0, 1, 0, 0, 0, 0, 0,
];

/// The checkpoint after it, with the word 7 in hand, and the reply 5 kept: the total alone again.
const NEXT_WORDS: &[i16] = &[
    3, 1, 0, 1, 0, 2, 6, 1, 0, 9, 1, 0, 12, 0, 2, 0, 1, 1, 1, 5, 0, 1, 0, 1,
];

/// The first checkpoint in the era 1.
const RENAMED_WORDS: &[i16] = &[
    3, 1, 0, 1, 0, 1, 6, 1, 0, 9, 1, 0, 5, 0, 2, 0, 1, 0, 0, 0, 0, 0,
];

/// Everything where the adder is about to answer 5, in the era 1.
const ANSWERING_WORDS: &[i16] = &[
    3, 1, 0, 1, 0, 1, 10, 1, 0, 10, 3, 0, 5, 1, 1, 4, 5, 1, 1, 0, 2, 2, 0, 1, 0, 0, 0, 0, 0,
];

/// Everything goes to a blank copy in the place of a checkpoint, and after it what is named goes again.
const AT_A_CHECKPOINT: &[Turn<'static>] = &[
    First(Take(0, 1, 5)),
    First(Checkpoint(NAMED_WORDS)),
    Second(Come(false)),
    First(Learn),
    First(Renew(1)),
    First(Checkpoint(EVERYTHING_WORDS)),
    First(Come(false)),
    Second(Come(true)),
    Second(Come(false)),
    First(Learn),
    First(Pass),
    First(Ask(1, 5)),
    First(Answer(0, 1, 5)),
    First(Take(1, 1, 7)),
    First(Checkpoint(NEXT_WORDS)),
    Second(TakeOver(2)),
    Second(Ask(1, 5)),
    Second(Answer(0, 1, 5)),
    Second(Repeat(0, 1, 5)),
];

/// Everything goes to a blank copy elsewhere, and the copy goes on where it stood.
const AT_AN_ANSWER: &[Turn<'static>] = &[
    First(Take(0, 1, 5)),
    First(Pass),
    First(Ask(1, 5)),
    First(Renew(1)),
    First(Checkpoint(ANSWERING_WORDS)),
    Second(Come(true)),
    First(Learn),
    First(End),
    First(Answer(0, 1, 5)),
    Second(TakeOver(2)),
    Second(Answer(0, 1, 5)),
    Second(Take(0, 2, 7)),
];

/// A copy that needn't send everything any more names what its CHECKPOINT names.
const NO_MORE: &[Turn<'static>] = &[
    First(Take(0, 1, 5)),
    First(Renew(1)),
    First(EndRenewal),
    First(Checkpoint(RENAMED_WORDS)),
];

/// A copy that acts, of the process of a text, and a blank one in the era 1, which two terminals ask.
#[tactic(auto, using(crate::proofs::Openers::all_of_depth))]
fn with_blank(alloc: Global, text: &[u8]) -> Result<Copies<Process>, Fail> {
    start_with_blank(alloc, text, 1, &[terminal(1); 2])
}

/// Whether the copies make all steps of a script.
fn is_played(alloc: Global, text: &[u8], script: &[Turn<'_>]) -> Result<bool, Fail> {
    let mut copies = with_blank(alloc, text)?;
    let made = play(alloc, &mut copies, script)?;
    Ok(made == script.len())
}

#[test]
fn a_blank_copy_starts_in_its_era(rt: HostRuntime) -> Result<(), Fail> {
    let copies = with_blank(rt.alloc(), LOGGING_ADDER)?;
    let blank = &copies.second;
    assert!(rt; blank.role() == Role::Blank);
    assert_eq!(rt; blank.era(), 1);
    assert_eq!(rt; blank.number(), 0);
    assert!(rt; !blank.sent() && !blank.acknowledged() && !blank.renewal());
    assert!(rt; blank.point() == Point::Inner);
    assert_eq!(rt; blank.next_on(1), 1);
    Ok(())
}

#[test]
fn everything_is_sent_in_the_place_of_a_checkpoint(rt: HostRuntime) -> Result<(), Fail> {
    let played = is_played(rt.alloc(), RARELY_NAMING_ADDER, AT_A_CHECKPOINT)?;
    assert!(rt; played);
    Ok(())
}

#[test]
fn everything_is_sent_elsewhere(rt: HostRuntime) -> Result<(), Fail> {
    let played = is_played(rt.alloc(), LOGGING_ADDER, AT_AN_ANSWER)?;
    assert!(rt; played);
    Ok(())
}

#[test]
fn what_need_not_be_sent_is_not(rt: HostRuntime) -> Result<(), Fail> {
    let played = is_played(rt.alloc(), RARELY_NAMING_ADDER, NO_MORE)?;
    assert!(rt; played);
    Ok(())
}
