ghost use Rattle.std.specs.Prelude.{◌≡◌, ◌≤◌, length};
ghost use Rattle.deck_lines.specs.Lines.{words_of};
ghost use Rattle.deck_lines.specs.SayingOf.{keyword_of, processors_said, event_keyword_of, placing_of, disc_said};
ghost use Rattle.deck_lines.specs.SayingOf.{pair_said, terminal_said, are_words, send_said, schedule_said};
ghost use Rattle.deck_lines.specs.SayingOf.{event_line_said, end_said, is_remark, said_by, or_formless, saying_of};
ghost use Rattle.deck_lines.specs.SayingOf.{request_of};

use crate::event_saying::{EventKeyword, EventSaying, event_said};
use crate::lines::{
    four_words, is_blank, is_printable, next_word, one_word, three_words, two_words,
};
use crate::numbers::{word_of, written_number};
use gd_words::{Name, Words};
use schedule::DriveChange;

/// The word with which a line begins.
#[derive(Clone, Copy, PartialEq, Eq)]
pub enum Keyword {
    Processors,
    /// A disc, which may be mirrored.
    Disc(bool),
    Pair,
    Terminal,
    Send,
    Schedule,
    Event(EventKeyword),
    End,
}

/// The name of a process and the processors of its two copies, as they are written.
#[derive(Drop)]
pub struct Placing {
    pub name: Name,
    pub primary: u32,
    pub backup: u32,
}

/// What a line outside a program says, with its numbers as they are written.
#[derive(Drop)]
pub enum Saying {
    /// A line of no form.
    Formless,
    /// An empty line or a remark.
    Nothing,
    Processors(u32),
    /// A disc with so many sectors, which may be mirrored.
    Disc {
        placing: Placing,
        sectors: u32,
        mirrored: bool,
    },
    Pair(Placing),
    Terminal {
        name: Name,
        target: Name,
    },
    /// One request of the terminal before.
    Send(Words),
    /// A request of more than 16 words.
    LongSend,
    Schedule,
    Event(EventSaying),
    End,
}

/// What a line outside a program says.
pub fn saying_of(line: &[u8]) -> Saying
    ensures { result ≡ saying_of line.now }
{
    if is_printable(line) {
        saying_or_form(said_by(line))
    } else {
        Saying::Formless
    }
}

fn saying_or_form(saying: Option<Saying>) -> Saying
    ensures { result ≡ or_formless saying }
{
    match saying {
        None => Saying::Formless,
        Some(saying) => saying,
    }
}

fn said_by(line: &[u8]) -> Option<Saying>
    ensures { result ≡ said_by (words_of line.now) }
{
    let Some((word, parts)) = next_word(line) else {
        return Some(Saying::Nothing);
    };
    if is_remark(word) {
        return Some(Saying::Nothing);
    }
    match keyword_of(word)? {
        Keyword::Processors => processors(parts),
        Keyword::Disc(mirrored) => disc(mirrored, parts),
        Keyword::Pair => pair(parts),
        Keyword::Terminal => terminal(parts),
        Keyword::Send => send(parts),
        Keyword::Schedule => schedule(parts),
        Keyword::Event(key) => event_line(key, parts),
        Keyword::End => end(parts),
    }
}

/// Whether the line that begins with this word is a remark.
fn is_remark(word: &[u8]) -> bool
    ensures { result ≡ is_remark word.now }
{
    match word {
        [] => false,
        [sign, ..] => *sign == b'#',
    }
}

fn keyword_of(word: &[u8]) -> Option<Keyword>
    ensures { result ≡ keyword_of word.now }
{
    if word == b"processors".as_slice() {
        Some(Keyword::Processors)
    } else if word == b"disc".as_slice() {
        Some(Keyword::Disc(false))
    } else if word == b"mirror".as_slice() {
        Some(Keyword::Disc(true))
    } else if word == b"pair".as_slice() {
        Some(Keyword::Pair)
    } else if word == b"terminal".as_slice() {
        Some(Keyword::Terminal)
    } else if word == b"send".as_slice() {
        Some(Keyword::Send)
    } else if word == b"schedule".as_slice() {
        Some(Keyword::Schedule)
    } else if word == b"END".as_slice() {
        Some(Keyword::End)
    } else {
        let key = event_keyword_of(word)?;
        Some(Keyword::Event(key))
    }
}

fn event_keyword_of(word: &[u8]) -> Option<EventKeyword>
    ensures { result ≡ event_keyword_of word.now }
{
    if word == b"run".as_slice() {
        Some(EventKeyword::Run)
    } else if word == b"enter".as_slice() {
        Some(EventKeyword::Enter)
    } else if word == b"deliver".as_slice() {
        Some(EventKeyword::Deliver)
    } else if word == b"lose".as_slice() {
        Some(EventKeyword::Lose)
    } else if word == b"repeat".as_slice() {
        Some(EventKeyword::Repeat)
    } else if word == b"tick".as_slice() {
        Some(EventKeyword::Tick)
    } else if word == b"fail".as_slice() {
        Some(EventKeyword::Fail)
    } else if word == b"reload".as_slice() {
        Some(EventKeyword::Reload)
    } else if word == b"break".as_slice() {
        Some(EventKeyword::Drive(DriveChange::Break))
    } else if word == b"revive".as_slice() {
        Some(EventKeyword::Drive(DriveChange::Revive))
    } else if word == b"copy".as_slice() {
        Some(EventKeyword::Drive(DriveChange::Copy))
    } else if word == b"drain".as_slice() {
        Some(EventKeyword::Drain)
    } else if word == b"mix".as_slice() {
        Some(EventKeyword::Mix)
    } else if word == b"mute".as_slice() {
        Some(EventKeyword::Mute)
    } else if word == b"until".as_slice() {
        Some(EventKeyword::Until)
    } else {
        None
    }
}

fn processors(parts: &[u8]) -> Option<Saying>
    ensures { result ≡ processors_said (words_of parts.now) }
{
    let word = one_word(parts)?;
    let count = written_number(word)?;
    Some(Saying::Processors(count))
}

fn placing_of(name: &[u8], primary: &[u8], backup: &[u8]) -> Option<Placing>
    ensures { result ≡ placing_of name.now primary.now backup.now }
{
    let name = Name::read(name)?;
    let primary = written_number(primary)?;
    let backup = written_number(backup)?;
    Some(Placing {
        name,
        primary,
        backup,
    })
}

fn disc(mirrored: bool, parts: &[u8]) -> Option<Saying>
    ensures { result ≡ disc_said mirrored (words_of parts.now) }
{
    let (name, primary, backup, sectors) = four_words(parts)?;
    let placing = placing_of(name, primary, backup)?;
    let sectors = written_number(sectors)?;
    Some(Saying::Disc {
        placing,
        sectors,
        mirrored,
    })
}

fn pair(parts: &[u8]) -> Option<Saying>
    ensures { result ≡ pair_said (words_of parts.now) }
{
    let (name, primary, backup) = three_words(parts)?;
    let placing = placing_of(name, primary, backup)?;
    Some(Saying::Pair(placing))
}

fn terminal(parts: &[u8]) -> Option<Saying>
    ensures { result ≡ terminal_said (words_of parts.now) }
{
    let (name, target) = two_words(parts)?;
    let name = Name::read(name)?;
    let target = Name::read(target)?;
    Some(Saying::Terminal { name, target })
}

fn send(parts: &[u8]) -> Option<Saying>
    ensures { result ≡ send_said (words_of parts.now) }
{
    if !are_words(parts) {
        return None;
    }
    match request_of(parts) {
        None => Some(Saying::LongSend),
        Some(words) => Some(Saying::Send(words)),
    }
}

/// Whether each part is a word of a request.
fn are_words(parts: &[u8]) -> bool
    ensures { result ≡ are_words (words_of parts.now) }
{
    let mut rest = parts;
    while let Some((word, more)) = next_word(rest) {
        if word_of(word).is_none() {
            return false;
        }
        rest = more;
    }
    true
}

/// The words of a request: none where one is malformed or more than 16 are there.
fn request_of(parts: &[u8]) -> Option<Words>
    ensures { result ≡ request_of (words_of parts.now) }
{
    let mut words = Words::new();
    let mut rest = parts;
    while let Some((word, more)) = next_word(rest) {
        let value = word_of(word)?;
        words.push(value).ok()?;
        rest = more;
    }
    Some(words)
}

fn schedule(parts: &[u8]) -> Option<Saying>
    ensures { result ≡ schedule_said (words_of parts.now) }
{
    if is_blank(parts) {
        Some(Saying::Schedule)
    } else {
        None
    }
}

fn event_line(key: EventKeyword, parts: &[u8]) -> Option<Saying>
    ensures { result ≡ event_line_said (words_of parts.now) key }
{
    let event = event_said(key, parts)?;
    Some(Saying::Event(event))
}

fn end(parts: &[u8]) -> Option<Saying>
    ensures { result ≡ end_said (words_of parts.now) }
{
    if is_blank(parts) {
        Some(Saying::End)
    } else {
        None
    }
}
