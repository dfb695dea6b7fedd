ghost use Rattle.std.specs.Prelude.{◌≡◌, ◌≤◌, Some, length};
ghost use Rattle.gd_words.specs.declared.limits.TheConstants.{MOST_MESSAGE_WORDS};
ghost use Rattle.message_layout.specs.process_semantics.specs.Words.{words_in, whole};
ghost use Rattle.message_layout.specs.checkpoint_image.specs.Reading.{Gives, longs_in, number_in, pair_in, reply_in};
ghost use Rattle.message_layout.specs.Reading.{address_in, answer_in, body_in, processor_in, report_in, request_in};
ghost use Rattle.message_layout.specs.Reading.{set_in, taken_in};

use crate::masks::set_of;
use alive_regroup::ProcessorSet;
use checkpoint_image::TakenMessage;
use gd_words::limits::{MOST_MESSAGE_WORDS, MOST_PROCESSORS};
use gd_words::{Reply, Request, Words};
use std::marker::Model;

/// The words of a message that weren't read yet. Each call reads a part from their front; where it reads none they are
/// of no use any more.
#[derive(Drop)]
pub(crate) struct Unread<'a> {
    words: &'a [i16],
}

impl<'a> Model for Unread<'a> {
    ghost use Rattle.std.specs.Prelude.{List, ℤ};

    ghost Value = { List ℤ };

    ghost view = { λ unread. unread.words.now };
}

impl<'a> Unread<'a> {
    /// All words.
    pub(crate) fn new(words: &'a [i16]) -> Unread<'a>
        ensures { result ≡ words.now }
    {
        Unread { words }
    }

    /// What was read, where nothing is left after it.
    pub(crate) fn ended<T: Drop>(&self, read: T) -> Option<T>
        ensures { result ≡ whole (Some (read, self.now)) }
    {
        match self.words {
            [] => Some(read),
            _ => None,
        }
    }

    /// A number up to a limit.
    fn number(&mut self, limit: u16) -> Option<u16>
        ensures { Gives (λ number. (number, self.new)) result (number_in limit self.old) }
    {
        match self.words {
            [word, rest @ ..] if 0 <= *word && word.cast_unsigned() <= limit => {
                self.words = rest;
                Some(word.cast_unsigned())
            }
            _ => None,
        }
    }

    /// A number of at most 255.
    fn byte(&mut self) -> Option<u8>
        ensures { Gives (λ number. (number, self.new)) result (number_in 255 self.old) }
    {
        let number = self.number(255)?;
        Some(number as u8)
    }

    /// The number of a processor.
    pub(crate) fn processor(&mut self) -> Option<u8>
        ensures { Gives (λ number. (number, self.new)) result (processor_in self.old) }
    {
        let number = self.number(MOST_PROCESSORS as u16 - 1)?;
        Some(number as u8)
    }

    /// A number of 32 bits.
    fn long(&mut self) -> Option<u32>
        ensures { Gives (λ number. (number, self.new)) result (pair_in self.old) }
    {
        match self.words {
            [high, low, rest @ ..] => {
                self.words = rest;
                Some(u32::from(high.cast_unsigned()) * 65_536 + u32::from(low.cast_unsigned()))
            }
            _ => None,
        }
    }

    /// A set of processors.
    fn set(&mut self) -> Option<ProcessorSet>
        ensures { Gives (λ set. (set, self.new)) result (set_in self.old) }
    {
        match self.words {
            [word, rest @ ..] => {
                self.words = rest;
                Some(set_of(word.cast_unsigned()))
            }
            _ => None,
        }
    }

    /// So many words.
    fn front(&mut self, count: u16) -> Option<&'a [i16]>
        ensures { Gives (λ words. (words.now, self.new)) result (words_in count self.old) }
    {
        let count = usize::from(count);
        if count <= self.words.len() {
            let (front, rest) = self.words.split_at(count);
            self.words = rest;
            Some(front)
        } else {
            None
        }
    }

    /// At most 16 words, with their count before them.
    fn counted(&mut self) -> Option<Words>
        ensures { Gives (λ words. (words, self.new)) result (reply_in self.old) }
    {
        let count = self.number(MOST_MESSAGE_WORDS as u16)?;
        let words = self.front(count)?;
        Some(words_of(words))
    }

    /// A process, and an opener's place there.
    fn address(&mut self) -> Option<(u8, u16)>
        ensures { Gives (λ address. (address, self.new)) result (address_in self.old) }
    {
        let process = self.byte()?;
        let opener = self.number(32_767)?;
        Some((process, opener))
    }

    /// A request's number, and its words or those of its reply.
    fn body(&mut self) -> Option<(u32, Words)>
        ensures { Gives (λ body. (body, self.new)) result (body_in self.old) }
    {
        let number = self.long()?;
        let words = self.counted()?;
        Some((number, words))
    }

    /// A request.
    pub(crate) fn request(&mut self) -> Option<Request>
        ensures { Gives (λ request. (request, self.new)) result (request_in self.old) }
    {
        let (process, opener) = self.address()?;
        let (number, words) = self.body()?;
        Some(Request {
            process,
            opener,
            number,
            words,
        })
    }

    /// A reply.
    pub(crate) fn reply(&mut self) -> Option<Reply>
        ensures { Gives (λ reply. (reply, self.new)) result (answer_in self.old) }
    {
        let (process, opener) = self.address()?;
        let (number, words) = self.body()?;
        Some(Reply {
            process,
            opener,
            number,
            words,
        })
    }

    /// An era, and the number of a checkpoint in it.
    fn longs(&mut self) -> Option<(u32, u32)>
        ensures { Gives (λ longs. (longs, self.new)) result (longs_in self.old) }
    {
        let era = self.long()?;
        let number = self.long()?;
        Some((era, number))
    }

    /// Which checkpoint was taken.
    pub(crate) fn taken(&mut self) -> Option<TakenMessage>
        ensures { Gives (λ taken. (taken, self.new)) result (taken_in self.old) }
    {
        let process = self.byte()?;
        let (era, number) = self.longs()?;
        Some(TakenMessage {
            process,
            era,
            number,
        })
    }

    /// A node, and the set that it reports.
    pub(crate) fn report(&mut self) -> Option<(u8, ProcessorSet)>
        ensures { Gives (λ report. (report, self.new)) result (report_in self.old) }
    {
        let node = self.processor()?;
        let silent = self.set()?;
        Some((node, silent))
    }
}

/// These words, of which there are few.
fn words_of(words: &[i16]) -> Words
    requires { length words.now ≤ MOST_MESSAGE_WORDS }
    ensures { result ≡ words.now }
{
    let mut all = Words::new();
    for word in words {
        let _room = all.push(*word);
    }
    all
}
