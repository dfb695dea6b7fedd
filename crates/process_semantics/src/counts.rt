ghost use Rattle.std.specs.Prelude.{◌≡◌, ◌≤◌, length, IfSome};
ghost use Rattle.process_semantics.specs.State.{good_count};
ghost use Rattle.process_semantics.specs.Points.{where_good, where_both_good};
ghost use Rattle.process_semantics.specs.Calls.{first_words};
ghost use Rattle.tal_values.specs.gd_words.specs.declared.limits.TheConstants.{MOST_MESSAGE_WORDS};

use crate::point::Point;
use tal_values::{MOST_MESSAGE_WORDS, Words};

/// The point of a call with this count: Inner where there is none, since the call traps.
pub fn where_good(point: Point, count: Option<usize>) -> Point
    ensures { result ≡ where_good point count }
{
    match count {
        None => Point::Inner,
        Some(_) => point,
    }
}

/// The point of a call with two counts.
pub fn where_both_good(point: Point, first: Option<usize>, second: Option<usize>) -> Point
    ensures { result ≡ where_both_good point first second }
{
    match first {
        None => Point::Inner,
        Some(_) => where_good(point, second),
    }
}

/// How many words of an array a count names.
pub fn good_count(words: &[i16], count: i16) -> Option<usize>
    ensures value { result ≡ good_count words.now count }
    ensures within { IfSome result (λ n. n ≤ length words.now) }
    ensures few { IfSome result (λ n. n ≤ MOST_MESSAGE_WORDS) }
{
    if count < 0 {
        return None;
    }
    let count = usize::from(count.unsigned_abs());
    if count <= words.len() && count <= MOST_MESSAGE_WORDS {
        Some(count)
    } else {
        None
    }
}

/// The words of an array that a count names, none where it is no count.
pub fn front(words: &[i16], count: i16) -> Words
    ensures { result ≡ first_words words.now (good_count words.now count) }
{
    match good_count(words, count) {
        None => Words::new(),
        Some(n) => {
            let (front, _) = words.split_at(n);
            few_words(front)
        }
    }
}

/// A list of at most 16 words.
pub fn few_words(words: &[i16]) -> Words
    requires { length words.now ≤ MOST_MESSAGE_WORDS }
    ensures { result ≡ words.now }
{
    let mut all = Words::new();
    for word in words {
        let _full = all.push(*word);
    }
    all
}
