use change_layout::{from_words, to_words};
use checkpoint_image::FileNumber;
use gd_words::NoMemory;
use std::alloc::Global;
use std::test::Fail;

/// The second checkpoint of a bank's process: its frame and six words of two items, the number of its disc, and what
/// changed of its one opener: a second request was taken and one reply added.
const WORDS: [i16; 32] = [
    7, 1, 0, 0, 0, 2, 14, 1, 0, 8, 4, 4, 7, 5, 0, 0, 5, 1, 1, 0, 12, 1, 1, 0, 2, 1, 1, 0, 2, 1, 5,
    0,
];

#[test]
fn a_checkpoint_has_its_words(rt: HostRuntime) -> Result<(), Fail> {
    let message = from_words(rt.alloc(), &WORDS)?.ok_or("no checkpoint")?;
    assert_eq!(rt; message.process, 1);
    assert_eq!(rt; message.era, 0);
    assert_eq!(rt; message.number, 2);
    let body = [1, 0, 8, 4, 4, 7, 5, 0, 0, 5, 1, 1, 0, 12];
    assert!(rt; message.image.body.as_slice() == body.as_slice());
    let files = [FileNumber { file: 1, next: 2 }];
    assert!(rt; message.image.files.as_slice() == files.as_slice());
    let changes = message.image.receive.changes.as_slice();
    assert_eq!(rt; changes.len(), 1);
    assert!(rt;
        changes
            .iter()
            .all(|change| change.opener == 0 && change.taken == 2)
    );
    assert!(rt; changes.iter().all(|change| change.added.len() == 1));
    assert_eq!(rt; message.image.receive.in_hand, Some(0));
    let words = to_words(rt.alloc(), &message)?;
    assert!(rt; words.as_slice() == WORDS.as_slice());
    Ok(())
}

#[test]
fn other_words_have_none(rt: HostRuntime) -> Result<(), Fail> {
    let alloc = rt.alloc();
    for count in 0..32 {
        let (front, _) = WORDS.split_at(count);
        assert!(rt; from_words(alloc, front)?.is_none(), "{count}");
    }
    let rows = [
        (0, 3, "another kind"),
        (1, 256, "a process of 256"),
        (21, -1, "a count of files below 0"),
        (25, -1, "a count of changes below 0"),
        (26, 5, "five replies added"),
        (26, -1, "a place below 0"),
        (26, 2, "more replies than there are"),
        (29, 17, "a reply of seventeen words"),
        (31, -2, "a place in hand below -1"),
    ];
    for (place, word, what) in rows {
        let mut words = WORDS;
        words[place] = word;
        assert!(rt; from_words(alloc, &words)?.is_none(), "{what}");
    }
    Ok(())
}

/// Whether the words are no checkpoint's, or those of the checkpoint that is read from them.
fn are_refused_or_told(alloc: Global, words: &[i16]) -> Result<bool, NoMemory> {
    match from_words(alloc, words)? {
        None => Ok(true),
        Some(message) => {
            let again = to_words(alloc, &message)?;
            Ok(again.as_slice() == words)
        }
    }
}

/// Each word in turn goes through all 65,536 values, and is as before at the end.
#[test]
fn each_value_of_each_word_is_refused_or_told(rt: HostRuntime) -> Result<(), Fail> {
    let alloc = rt.alloc();
    let mut words: [i16; 32] = WORDS;
    for place in 0..32 {
        for _value in 0..65_536 {
            let word = words[place].wrapping_add(1);
            words[place] = word;
            assert!(rt; are_refused_or_told(alloc, &words)?, "{place} {word}");
        }
    }
    assert!(rt; words == WORDS);
    Ok(())
}
