use checkpoint_image::{FileNumber, from_words, to_words};
use gd_words::{List, NoMemory};
use std::alloc::Global;
use std::test::Fail;

/// The first checkpoint of a bank's process: its frame and five items, the number of its disc, and one opener whose
/// request is in hand.
const WORDS: [i16; 30] = [
    3, 1, 0, 0, 0, 1, 14, 1, 0, 8, 4, 4, 5, 5, 0, 0, 0, 1, 1, 0, 5, 1, 1, 0, 1, 1, 0, 1, 0, 0,
];

fn list_of(alloc: Global, words: &[i16]) -> Result<List<i16>, NoMemory> {
    let mut list = List::new(alloc);
    list.extend_from_slice(words)?;
    Ok(list)
}

/// Whether the words are a checkpoint's, and this has the same words again.
fn is_told(alloc: Global, words: &[i16]) -> Result<bool, NoMemory> {
    match from_words(alloc, words)? {
        None => Ok(false),
        Some(message) => {
            let again = to_words(alloc, &message)?;
            Ok(again.as_slice() == words)
        }
    }
}

#[test]
fn a_checkpoint_has_its_words(rt: HostRuntime) -> Result<(), Fail> {
    let message = from_words(rt.alloc(), &WORDS)?.ok_or("no checkpoint")?;
    assert_eq!(rt; message.process, 1);
    assert_eq!(rt; message.era, 0);
    assert_eq!(rt; message.number, 1);
    let body = [1, 0, 8, 4, 4, 5, 5, 0, 0, 0, 1, 1, 0, 5];
    assert!(rt; message.image.body.as_slice() == body.as_slice());
    let files = [FileNumber { file: 1, next: 1 }];
    assert!(rt; message.image.files.as_slice() == files.as_slice());
    let openers = message.image.receive.openers.as_slice();
    assert_eq!(rt; openers.len(), 1);
    assert!(rt; openers.iter().all(|opener| opener.taken == 1));
    assert!(rt; openers.iter().all(|opener| opener.kept.is_empty()));
    assert_eq!(rt; message.image.receive.in_hand, Some(0));
    let words = to_words(rt.alloc(), &message)?;
    assert!(rt; words.as_slice() == WORDS.as_slice());
    Ok(())
}

#[test]
fn the_high_half_of_a_number_stands_first(rt: HostRuntime) -> Result<(), Fail> {
    let words = [3, 255, 1, 2, -1, -2, 0, 0, 0, -1];
    let message = from_words(rt.alloc(), &words)?.ok_or("no checkpoint")?;
    assert_eq!(rt; message.process, 255);
    assert_eq!(rt; message.era, 65_538);
    assert_eq!(rt; message.number, 4_294_967_294);
    assert_eq!(rt; message.image.receive.in_hand, None);
    let again = to_words(rt.alloc(), &message)?;
    assert!(rt; again.as_slice() == words.as_slice());
    Ok(())
}

#[test]
fn other_words_have_none(rt: HostRuntime) -> Result<(), Fail> {
    let alloc = rt.alloc();
    for count in 0..30 {
        let (front, _) = WORDS.split_at(count);
        assert!(rt; from_words(alloc, front)?.is_none(), "{count}");
    }
    let mut longer = list_of(alloc, &WORDS)?;
    longer.push(0)?;
    assert!(rt; from_words(alloc, longer.as_slice())?.is_none());
    let rows = [
        (0, 4, "another kind"),
        (1, -1, "a process below 0"),
        (1, 256, "a process of 256"),
        (6, -1, "a count of the body below 0"),
        (21, -1, "a count of files below 0"),
        (22, 256, "a file of 256"),
        (25, -1, "a count of openers below 0"),
        (28, -1, "a count of replies below 0"),
        (29, -2, "a place below -1"),
    ];
    for (place, word, what) in rows {
        let mut changed: [i16; 30] = WORDS;
        changed[place] = word;
        assert!(rt; from_words(alloc, &changed)?.is_none(), "{what}");
    }
    Ok(())
}

/// Whether the words are no checkpoint's, or those of the checkpoint that is read from them.
fn are_refused_or_told(alloc: Global, words: &[i16]) -> Result<bool, NoMemory> {
    match from_words(alloc, words)? {
        None => Ok(true),
        Some(message) => {
            let again = to_words(alloc, &message)?;
            Ok(again.as_slice() == words)
        }
    }
}

/// Each word in turn goes through all 65,536 values, and is as before at the end.
#[test]
fn each_value_of_each_word_is_refused_or_told(rt: HostRuntime) -> Result<(), Fail> {
    let alloc = rt.alloc();
    let mut words: [i16; 30] = WORDS;
    for place in 0..30 {
        for _value in 0..65_536 {
            let word = words[place].wrapping_add(1);
            words[place] = word;
            assert!(rt; are_refused_or_told(alloc, &words)?, "{place} {word}");
        }
    }
    assert!(rt; words == WORDS);
    Ok(())
}

#[test]
fn replies_have_at_most_16_words(rt: HostRuntime) -> Result<(), Fail> {
    let alloc = rt.alloc();
    for (count, told) in [(0, true), (1, true), (16, true), (17, false)] {
        let mut words = list_of(alloc, &[3, 0, 0, 0, 0, 1, 0, 0, 1, 0, 2, 2, 0])?;
        words.push(count)?;
        for k in 0..count {
            words.push(k)?;
        }
        words.push(-1)?;
        assert!(rt; is_told(alloc, words.as_slice())? == told, "{count}");
    }
    Ok(())
}
