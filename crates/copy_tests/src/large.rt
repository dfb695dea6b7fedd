use crate::scripts::Copies;
use crate::starting::{start_both, terminal};
use crate::steps::{answer, pass, repeat, send, take};
use crate::worded::words_of;
use checkpoint_image::{ImageMessage, from_words};
use gd_words::{List, NoMemory};
use process_control::CopyControl;
use processes::Process;
use std::alloc::Global;
use std::test::Fail;

/// What stands before the names of the 54 arrays of the largest program.
const HEAD: &[u8] = b"INT rcv, got, f1, f2, f3, f4, f5, f6, f7; INT buf[0:42]";

/// What stands between its declarations and the names in its CHECKPOINT.
const BODY: &[u8] = b";
PROC serve MAIN;
BEGIN
  CALL CHECKMONITOR;
  CALL OPEN(\"$RECEIVE\", rcv, 1);
  CALL OPEN(\"$S1\", f1, 1); CALL OPEN(\"$S2\", f2, 1); CALL OPEN(\"$S3\", f3, 1);
  CALL OPEN(\"$S4\", f4, 1); CALL OPEN(\"$S5\", f5, 1); CALL OPEN(\"$S6\", f6, 1);
  CALL OPEN(\"$S7\", f7, 1);
  WHILE 1 DO
  BEGIN
    CALL READUPDATE(rcv, buf, 1, got);
    CALL CHECKPOINT(got, buf";

const TAIL: &[u8] = b", f1, f2, f3, f4, f5, f6, f7);
    CALL REPLY(buf, 1);
  END;
END;";

/// Puts the names of the 54 arrays behind a text, each with what follows it.
fn put_arrays(text: &mut List<u8>, after: &[u8]) -> Result<(), NoMemory> {
    for first in b"uvwxyz" {
        text.push(b'\n')?;
        for second in b"abcdefghi" {
            text.extend_from_slice(b", ")?;
            text.push(*first)?;
            text.push(*second)?;
            text.extend_from_slice(after)?;
        }
    }
    Ok(())
}

/// A program with 64 globals of 1,024 words in all, and 8 files. Its CHECKPOINT names all of them but `$RECEIVE`.
fn large_text(alloc: Global) -> Result<List<u8>, NoMemory> {
    let mut text = List::new(alloc);
    text.extend_from_slice(HEAD)?;
    put_arrays(&mut text, b"[0:17]")?;
    text.extend_from_slice(BODY)?;
    put_arrays(&mut text, b"")?;
    text.extend_from_slice(TAIL)?;
    Ok(text)
}

/// The word of a request, which is its reply too.
fn word_of(opener: u8, number: u8) -> i16 {
    i16::from(opener) * 8 + i16::from(number)
}

/// Serves a request, without a checkpoint.
fn serve(
    alloc: Global,
    copy: &mut CopyControl<Process>,
    opener: u8,
    number: u8,
) -> Result<bool, NoMemory> {
    let word = word_of(opener, number);
    let opener = u16::from(opener);
    let number = u32::from(number);
    Ok(take(alloc, copy, opener, number, word)? && pass(copy) && answer(copy, opener, number, word))
}

/// Serves each of 64 openers four times, and takes a fifth request of the last one.
fn serve_all(alloc: Global, copy: &mut CopyControl<Process>) -> Result<bool, NoMemory> {
    for number in 1..5 {
        for opener in 0..64 {
            if !serve(alloc, copy, opener, number)? {
                return Ok(false);
            }
        }
    }
    take(alloc, copy, 63, 5, 50)
}

/// Whether a copy tells again all that was answered.
fn repeats_all(alloc: Global, copy: &CopyControl<Process>) -> Result<bool, NoMemory> {
    for number in 1..5 {
        for opener in 0..64 {
            let word = word_of(opener, number);
            if !repeat(alloc, copy, u16::from(opener), u32::from(number), word)? {
                return Ok(false);
            }
        }
    }
    Ok(true)
}

/// A checkpoint after it went through its words.
fn worded(alloc: Global, message: &ImageMessage) -> Result<Option<ImageMessage>, NoMemory> {
    match words_of(alloc, message)? {
        None => Ok(None),
        Some(words) => from_words(alloc, words.as_slice()),
    }
}

/// Two copies of the largest process, which 64 terminals ask, of each of which four replies are kept.
#[tactic(auto, using(crate::proofs::Openers::all_of_depth))]
fn largest(alloc: Global) -> Result<Copies<Process>, Fail> {
    let text = large_text(alloc)?;
    start_both(alloc, text.as_slice(), &[terminal(4); 64])
}

/// Whether the second copy has all of what the first has after its last take.
fn is_carried(alloc: Global, copies: &mut Copies<Process>) -> Result<bool, Fail> {
    if !serve_all(alloc, &mut copies.first)? {
        return Ok(false);
    }
    let sent = send(alloc, &mut copies.first)?.ok_or("no checkpoint")?;
    if sent.image.body.len() != 3 + 1 + 56 + 1_016 || sent.image.files.len() != 7 {
        return Ok(false);
    }
    let message = worded(alloc, &sent)?.ok_or("no words")?;
    Ok(copies.second.checkpoint_in(&message))
}

/// Whether a copy knows all that was answered, and the request in hand.
fn goes_on(alloc: Global, copy: &mut CopyControl<Process>) -> Result<bool, NoMemory> {
    Ok(repeats_all(alloc, copy)? && answer(copy, 63, 5, 50))
}

#[test]
fn the_largest_process_is_carried_whole(rt: HostRuntime) -> Result<(), Fail> {
    let mut copies = largest(rt.alloc())?;
    let carried = is_carried(rt.alloc(), &mut copies)?;
    assert!(rt; carried);
    let goes_on = goes_on(rt.alloc(), &mut copies.second)?;
    assert!(rt; goes_on);
    Ok(())
}
