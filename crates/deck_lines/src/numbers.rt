ghost use Rattle.std.specs.Prelude.{◌≡◌, ◌<◌, ◌≤◌, ◌^◌, ◌&&◌, length, IsTrue, IfSome};
ghost use Rattle.std.specs.Option.{ForSome};
ghost use Rattle.std.specs.Char.{is_ascii_digit};
ghost use Rattle.std.specs.List.{list_all};
ghost use Rattle.deck_lines.specs.Numbers.{digits_value, are_digits, written_number, small_of, word_of, as_negative};
ghost use Rattle.deck_lines.specs.Numbers.{as_positive};

/// What decimal digits stand for, ten at most.
pub fn digits_value(digits: &[u8]) -> u64
    requires digits { IsTrue (list_all is_ascii_digit digits.now) }
    requires few { length digits.now ≤ 10 }
    ensures value { result ≡ digits_value digits.now }
    ensures bound { result < 10 ^ length digits.now }
{
    let mut value = 0;
    for c in digits {
        value = value * 10 + u64::from(*c - b'0');
    }
    value
}

/// Whether a text is one to `most` decimal digits.
pub fn are_digits(most: usize, word: &[u8]) -> bool
    ensures { result ≡ are_digits most word.now }
{
    1 <= word.len() && word.len() <= most && are_all_digits(word)
}

fn are_all_digits(word: &[u8]) -> bool
    ensures { result ≡ list_all is_ascii_digit word.now }
{
    word.iter().all(|c| c.is_ascii_digit())
}

/// A number: one to nine digits.
pub fn written_number(word: &[u8]) -> Option<u32>
    ensures { result ≡ written_number word.now }
{
    if are_digits(9, word) {
        Some(digits_value(word) as u32)
    } else {
        None
    }
}

fn small_of(most: u32, word: &[u8]) -> Option<u32>
    ensures value { result ≡ small_of most word.now }
    ensures bound { IfSome result (λ n. n ≤ most) }
{
    if are_digits(5, word) && digits_value(word) <= u64::from(most) {
        Some(digits_value(word) as u32)
    } else {
        None
    }
}

/// A word of a request: an optional `-` and one to five digits, from -32,768 to 32,767.
pub fn word_of(word: &[u8]) -> Option<i16>
    ensures { result ≡ word_of word.now }
{
    match word {
        [] => None,
        [b'-', digits @ ..] => negative(small_of(32_768, digits)),
        _ => positive(small_of(32_767, word)),
    }
}

fn negative(digits: Option<u32>) -> Option<i16>
    requires { ForSome digits (λ n. n ≤ 32768) }
    ensures { result ≡ as_negative digits }
{
    match digits {
        None => None,
        Some(n) => Some((-(n as i32)) as i16),
    }
}

fn positive(digits: Option<u32>) -> Option<i16>
    requires { ForSome digits (λ n. n ≤ 32767) }
    ensures { result ≡ as_positive digits }
{
    match digits {
        None => None,
        Some(n) => Some(n as i16),
    }
}
