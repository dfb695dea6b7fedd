ghost use Rattle.std.specs.Prelude.{◌≡◌, ◌-◌, ◌≤◌, [], length, not, take, drop, slice_get};
ghost use Rattle.std.specs.List.{list_any, position};
ghost use Rattle.deck_lines.specs.Lines.{words_of};
ghost use Rattle.gd_words.specs.Spelling.{ident_of, is_ident_sign};
ghost use Rattle.fault_words.specs.Hints.{are_declaring, are_int, are_keyword, asks_for_name, begins_with_dollar};
ghost use Rattle.fault_words.specs.Hints.{begins_with_int, comes_before_name, declares, form_hint, has_sign, hint_of};
ghost use Rattle.fault_words.specs.Hints.{hint_text, is_keyword, is_keyword_from_or, is_keyword_up_to_else};
ghost use Rattle.fault_words.specs.Hints.{is_keyword_up_to_not, is_list, is_sign, keyword_hint, lacks_dollar};
ghost use Rattle.fault_words.specs.Hints.{last_after, local_hint, name_at, name_length, next_lacks_dollar};
ghost use Rattle.fault_words.specs.Hints.{program_hint, sign_hint};

use deck_lines::next_word;
use gd_words::Ident;
use gd_words::ident::is_ident_sign;
use tal_tree::{DeckFault, TalFault};

/// What often lies behind a fault.
#[derive(Clone, Copy, PartialEq, Eq)]
pub enum Hint {
    CarriageReturn,
    Tab,
    NoDollar,
    LocalBeforeBegin,
    KeywordAsName,
    PointAlone,
}

impl Hint {
    /// What the hint says, without a point.
    pub fn text(self) -> &'static [u8]
        ensures { result.now ≡ hint_text self }
    {
        match self {
            Hint::CarriageReturn => {
                b"a carriage return stands here, as in files of DOS: a line ends with a line feed alone"
            }
            Hint::Tab => b"a tab stands here: outside programs spaces alone separate words",
            Hint::NoDollar => b"the name of a process or a terminal begins with `$`",
            Hint::LocalBeforeBegin => {
                b"the names before BEGIN are the parameters; a local is declared after BEGIN"
            }
            Hint::KeywordAsName => b"this is a keyword of TAL, and no name",
            Hint::PointAlone => {
                b"a program ends with a line that is a point and nothing else, and a deck with END"
            }
        }
    }
}

/// What often lies behind the fault that stands on this line, where it is known.
pub fn hint_of(fault: &DeckFault, line: &[u8]) -> Option<Hint>
    ensures { result ≡ hint_of fault.now line.now }
{
    match fault {
        DeckFault::Line(_) => form_hint(line),
        DeckFault::Program(_, fault) => program_hint(fault, line),
        DeckFault::NoEnd(_) => Some(Hint::PointAlone),
        _ => None,
    }
}

fn form_hint(line: &[u8]) -> Option<Hint>
    ensures { result ≡ form_hint line.now }
{
    if has_sign(line, b'\r') {
        Some(Hint::CarriageReturn)
    } else if has_sign(line, b'\t') {
        Some(Hint::Tab)
    } else if lacks_dollar(line) {
        Some(Hint::NoDollar)
    } else {
        None
    }
}

fn has_sign(text: &[u8], sign: u8) -> bool
    ensures { result ≡ has_sign sign text.now }
{
    text.iter().any(|c| *c == sign)
}

fn lacks_dollar(line: &[u8]) -> bool
    ensures { result ≡ lacks_dollar (words_of line.now) }
{
    match next_word(line) {
        None => false,
        Some((word, rest)) => comes_before_name(word) && next_lacks_dollar(rest),
    }
}

fn comes_before_name(word: &[u8]) -> bool
    ensures { result ≡ comes_before_name word.now }
{
    word == b"disc".as_slice()
        || word == b"pair".as_slice()
        || word == b"terminal".as_slice()
        || word == b"run".as_slice()
        || word == b"enter".as_slice()
}

fn next_lacks_dollar(text: &[u8]) -> bool
    ensures { result ≡ next_lacks_dollar (words_of text.now) }
{
    match next_word(text) {
        None => false,
        Some((word, _)) => !begins_with_dollar(word),
    }
}

fn begins_with_dollar(word: &[u8]) -> bool
    ensures { result ≡ begins_with_dollar word.now }
{
    match word {
        [] => false,
        [sign, ..] => *sign == b'$',
    }
}

fn program_hint(fault: &TalFault, line: &[u8]) -> Option<Hint>
    ensures { result ≡ program_hint fault.now line.now }
{
    match fault {
        TalFault::BadCharacter(place) => {
            let (_, after) = cut_at(line, place.column);
            sign_hint(after)
        }
        TalFault::Expected(place) => {
            let (before, after) = cut_at(line, place.column);
            keyword_hint(before, after)
        }
        TalFault::Unknown(place) => {
            let (before, _) = cut_at(line, place.column);
            local_hint(line, before)
        }
        _ => None,
    }
}

/// What stands before a column of a line, and the rest from there.
pub fn cut_at(line: &[u8], column: u32) -> (&[u8], &[u8])
    ensures before { result.0.now ≡ take (column - 1) line.now }
    ensures after { result.1.now ≡ drop (column - 1) line.now }
{
    let at = column.saturating_sub(1) as usize;
    if at < line.len() {
        line.split_at(at)
    } else {
        line.split_at(line.len())
    }
}

fn sign_hint(after: &[u8]) -> Option<Hint>
    ensures { result ≡ sign_hint after.now }
{
    if is_sign(after, 0, b'\r') {
        Some(Hint::CarriageReturn)
    } else {
        None
    }
}

fn is_sign(text: &[u8], at: usize, sign: u8) -> bool
    ensures { result ≡ is_sign sign (slice_get text.now at) }
{
    match text.get(at) {
        None => false,
        Some(c) => *c == sign,
    }
}

fn keyword_hint(before: &[u8], after: &[u8]) -> Option<Hint>
    ensures { result ≡ keyword_hint before.now after.now }
{
    if are_keyword(after) && asks_for_name(last_word(before)) {
        Some(Hint::KeywordAsName)
    } else {
        None
    }
}

/// Whether the text begins with a keyword.
fn are_keyword(text: &[u8]) -> bool
    ensures { result ≡ are_keyword (name_at text.now) }
{
    let len = name_length(text);
    match Ident::read(&text[..len]) {
        None => false,
        Some(word) => is_keyword(word.text()),
    }
}

fn name_length(text: &[u8]) -> usize
    ensures value { result ≡ name_length text.now }
    ensures within { result ≤ length text.now }
{
    name_end(text).unwrap_or(text.len())
}

fn name_end(text: &[u8]) -> Option<usize>
    ensures { result ≡ position (λ c. not (is_ident_sign c)) text.now }
{
    text.iter().position(|c| !is_ident_sign(*c))
}

fn is_keyword(word: &[u8]) -> bool
    ensures { result ≡ is_keyword word.now }
{
    is_keyword_up_to_else(word) || is_keyword_up_to_not(word) || is_keyword_from_or(word)
}

fn is_keyword_up_to_else(word: &[u8]) -> bool
    ensures { result ≡ is_keyword_up_to_else word.now }
{
    word == b"AND".as_slice()
        || word == b"BEGIN".as_slice()
        || word == b"BY".as_slice()
        || word == b"CALL".as_slice()
        || word == b"DO".as_slice()
        || word == b"DOWNTO".as_slice()
        || word == b"ELSE".as_slice()
}

fn is_keyword_up_to_not(word: &[u8]) -> bool
    ensures { result ≡ is_keyword_up_to_not word.now }
{
    word == b"END".as_slice()
        || word == b"FOR".as_slice()
        || word == b"IF".as_slice()
        || word == b"INT".as_slice()
        || word == b"LITERAL".as_slice()
        || word == b"MAIN".as_slice()
        || word == b"NOT".as_slice()
}

fn is_keyword_from_or(word: &[u8]) -> bool
    ensures { result ≡ is_keyword_from_or word.now }
{
    word == b"OR".as_slice()
        || word == b"PROC".as_slice()
        || word == b"RETURN".as_slice()
        || word == b"THEN".as_slice()
        || word == b"TO".as_slice()
        || word == b"UNTIL".as_slice()
        || word == b"WHILE".as_slice()
}

/// The last word of a text; nothing where there is none.
fn last_word(text: &[u8]) -> &[u8]
    ensures { result.now ≡ last_after [] (words_of text.now) }
{
    let mut last: &[u8] = &[];
    let mut left = text;
    while let Some((word, rest)) = next_word(left) {
        last = word;
        left = rest;
    }
    last
}

fn asks_for_name(word: &[u8]) -> bool
    ensures { result ≡ asks_for_name word.now }
{
    are_declaring(word) || is_sign(word, word.len().saturating_sub(1), b',')
}

fn are_declaring(word: &[u8]) -> bool
    ensures { result ≡ are_declaring (ident_of word.now) }
{
    match Ident::read(word) {
        None => false,
        Some(word) => declares(word.text()),
    }
}

fn declares(word: &[u8]) -> bool
    ensures { result ≡ declares word.now }
{
    word == b"INT".as_slice()
        || word == b"PROC".as_slice()
        || word == b"LITERAL".as_slice()
        || word == b"CALL".as_slice()
}

fn local_hint(line: &[u8], before: &[u8]) -> Option<Hint>
    ensures { result ≡ local_hint line.now before.now }
{
    if begins_with_int(line) && is_list(before) {
        Some(Hint::LocalBeforeBegin)
    } else {
        None
    }
}

/// Whether the text may be the beginning of a list of names.
fn is_list(text: &[u8]) -> bool
    ensures { result ≡ is_list text.now }
{
    !(has_sign(text, b'(') || has_sign(text, b'[') || has_sign(text, b';'))
}

fn begins_with_int(line: &[u8]) -> bool
    ensures { result ≡ begins_with_int (words_of line.now) }
{
    match next_word(line) {
        None => false,
        Some((word, _)) => are_int(word),
    }
}

fn are_int(word: &[u8]) -> bool
    ensures { result ≡ are_int (ident_of word.now) }
{
    match Ident::read(word) {
        None => false,
        Some(word) => word.text() == b"INT".as_slice(),
    }
}
