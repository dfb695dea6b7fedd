ghost use Rattle.std.specs.Prelude.{◌≡◌, ◌<◌, ◌==◌, not, [], ◌∷◌, length, MatchOption, option_map};
ghost use Rattle.deck_lines.specs.Lines.{lines_of, words_of, is_printable, is_blank, one_word, two_words, three_words};
ghost use Rattle.deck_lines.specs.Lines.{four_words};
ghost use Rattle.deck_lines.specs.Cuts.{front_of, back_of};

/// The first line and what follows its line feed; none where the text is at its end.
pub fn next_line(text: &[u8]) -> Option<(&[u8], &[u8])>
    ensures { MatchOption result (text.now ≡ [])
        (λ cut. (lines_of text.now ≡ cut.0.now ∷ lines_of cut.1.now) × (length cut.1.now < length text.now)) }
{
    if text.is_empty() {
        return None;
    }
    let (line, rest) = split_before(text, b'\n');
    match rest.split_first() {
        None => Some((line, rest)),
        Some((_, after)) => Some((line, after)),
    }
}

/// What stands before the first such sign, and the rest from that sign on.
pub fn split_before(text: &[u8], sign: u8) -> (&[u8], &[u8])
    ensures front { result.0.now ≡ front_of (λ c. c == sign) text.now }
    ensures back { result.1.now ≡ back_of (λ c. c == sign) text.now }
{
    for (at, c) in text.iter().enumerate() {
        if *c == sign {
            return text.split_at(at);
        }
    }
    text.split_at(text.len())
}

/// The first word of a line and what follows it; none where only spaces are left.
pub fn next_word(line: &[u8]) -> Option<(&[u8], &[u8])>
    ensures { MatchOption result (words_of line.now ≡ [])
        (λ cut. (words_of line.now ≡ cut.0.now ∷ words_of cut.1.now) × (length cut.1.now < length line.now)) }
{
    let text = after_spaces(line);
    if text.is_empty() {
        return None;
    }
    Some(split_before(text, b' '))
}

/// A line without the spaces that it begins with.
fn after_spaces(line: &[u8]) -> &[u8]
    ensures { result.now ≡ back_of (λ c. not (c == 32)) line.now }
{
    for (at, c) in line.iter().enumerate() {
        if *c != b' ' {
            return line.split_at(at).1;
        }
    }
    &[]
}

/// The word, where a line has just this one.
pub fn one_word(line: &[u8]) -> Option<&[u8]>
    ensures { option_map (λ word. word.now) result ≡ one_word (words_of line.now) }
{
    let (word, rest) = next_word(line)?;
    if is_blank(rest) { Some(word) } else { None }
}

/// The words, where a line has just these two.
pub fn two_words(line: &[u8]) -> Option<(&[u8], &[u8])>
    ensures { option_map (λ words. (words.0.now, words.1.now)) result ≡ two_words (words_of line.now) }
{
    let (first, rest) = next_word(line)?;
    let second = one_word(rest)?;
    Some((first, second))
}

/// The words, where a line has just these three.
pub fn three_words(line: &[u8]) -> Option<(&[u8], &[u8], &[u8])>
    ensures { option_map (λ words. (words.0.now, words.1.now, words.2.now)) result ≡ three_words (words_of line.now) }
{
    let (first, rest) = next_word(line)?;
    let (second, third) = two_words(rest)?;
    Some((first, second, third))
}

/// The words, where a line has just these four.
pub fn four_words(line: &[u8]) -> Option<(&[u8], &[u8], &[u8], &[u8])>
    ensures { option_map (λ words. (words.0.now, words.1.now, words.2.now, words.3.now)) result
        ≡ four_words (words_of line.now) }
{
    let (first, rest) = next_word(line)?;
    let (second, third, fourth) = three_words(rest)?;
    Some((first, second, third, fourth))
}

/// Whether a line has no word.
pub fn is_blank(line: &[u8]) -> bool
    ensures { result ≡ is_blank (words_of line.now) }
{
    next_word(line).is_none()
}

/// Whether the line is printable ASCII.
pub fn is_printable(line: &[u8]) -> bool
    ensures { result ≡ is_printable line.now }
{
    line.iter().all(|c| 32 <= *c && *c <= 126)
}
