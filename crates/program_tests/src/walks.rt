ghost use Rattle.tal_interp.specs.Sound.{IsLoadable};

use crate::programs::image_of;
use checkpoint_image::Behaviour;
use gd_words::{List, NoMemory, Words};
use plain_program::Execution;
use process_semantics::Point;
use std::alloc::Global;
use tal_interp::TalProcess;
use tal_tree::Program;

/// What stands before the words that are asked.
pub const ASKS: i16 = 20_001;

/// What stands before the words that are answered.
pub const ANSWERS: i16 = 20_002;

/// What stands last where a program has ended.
pub const ENDS: i16 = 20_003;

/// What stands last where a program waits for a request or a reply, and nothing is left to come.
pub const WAITS: i16 = 20_004;

/// What a walk tells: the words that are asked and answered, each time behind which of the two they are, and how it
/// ends.
pub type Told = List<i16>;

/// A program that runs by its table, the plain program beside it, and, where its images are looked at, a second process
/// into which they are put.
#[derive(Drop)]
struct Sides<'a> {
    process: TalProcess,
    plain: Execution<'a>,
    second: TalProcess,
    restores: bool,
}

impl<'a> Sides<'a> {
    fn start(alloc: Global, program: &'a Program, restores: bool) -> Result<Sides<'a>, NoMemory>
        requires { IsLoadable program.now }
    {
        let process = TalProcess::load(alloc, program)?;
        let plain = Execution::start(alloc, program)?;
        let second = TalProcess::load(alloc, program)?;
        Ok(Sides {
            process,
            plain,
            second,
            restores,
        })
    }

    /// Whether an image is that of the plain program's state.
    fn is_plain(&self, alloc: Global, image: &[i16]) -> Result<bool, NoMemory> {
        let items = self.process.everything().items.as_slice();
        let words = self.plain.state_words(alloc, items)?;
        Ok(are_same(words.as_slice(), image))
    }

    /// Puts an image into the second process: each of its words changed in turn, a word too many and a word too few,
    /// which are refused, and as it is. Says whether the second then stands where the first does; at a checkpoint,
    /// after it.
    fn goes_on(&mut self, alloc: Global, image: &[i16]) -> Result<bool, NoMemory> {
        let in_hand = self.process.in_hand();
        let mut words = List::new(alloc);
        words.extend_from_slice(image)?;
        for (place, word) in image.iter().enumerate() {
            for other in [word.wrapping_add(1), -1, 0, 32_767] {
                words.set(place, other);
                let _taken = self.second.apply(words.as_slice(), in_hand);
            }
            words.set(place, *word);
        }
        words.push(0)?;
        let Some((_last, shorter)) = image.split_last() else {
            return Ok(false);
        };
        let refused = !self.second.apply(words.as_slice(), in_hand)
            && !self.second.apply(shorter, in_hand);
        let taken = self.second.apply(image, in_hand);
        let restored = image_of(alloc, &self.second)?;
        let stands = self.process.at() == Point::AtCheckpoint
            || self.second.at() == self.process.at();
        Ok(refused && taken && stands && restored.as_slice() == image)
    }

    /// Whether both programs stand at the same point with the same words, and the image restores them.
    fn agree(&mut self, alloc: Global) -> Result<bool, NoMemory> {
        let point = self.process.at();
        if point != self.plain.point(alloc)? || self.process.in_hand() != self.plain.in_hand() {
            return Ok(false);
        }
        let image = image_of(alloc, &self.process)?;
        if self.restores && point != Point::Await && !self.goes_on(alloc, image.as_slice())? {
            return Ok(false);
        }
        Ok(point == Point::AtCheckpoint || self.is_plain(alloc, image.as_slice())?)
    }

    /// Makes the next step of both, puts down what it tells, and says whether both tell the same.
    fn step(&mut self, alloc: Global, words: &Words, told: &mut Told) -> Result<bool, NoMemory> {
        match self.process.at() {
            Point::Inner => {
                self.process.inner();
                self.plain.inner(alloc)?;
            }
            Point::Take => {
                self.process.took(words);
                self.plain.took(alloc, words)?;
            }
            Point::Ask => {
                let asked = self.process.asked();
                let plain = self.plain.asked(alloc)?;
                tell(told, ASKS, asked.words.as_slice())?;
                let is_same = asked.words.as_slice() == plain.words.as_slice();
                return Ok(asked.file == plain.file && is_same);
            }
            Point::Await => {
                self.process.got(words);
                self.plain.got(alloc, words)?;
            }
            Point::Answer => {
                let answer = self.process.answered();
                let plain = self.plain.answered(alloc)?;
                tell(told, ANSWERS, answer.as_slice())?;
                return Ok(answer.as_slice() == plain.as_slice());
            }
            Point::AtCheckpoint => {
                let image = image_of(alloc, &self.process)?;
                self.process.checkpointed();
                self.plain.checkpointed();
                return self.is_plain(alloc, image.as_slice());
            }
            _ => {}
        }
        Ok(true)
    }
}

fn tell(told: &mut Told, what: i16, words: &[i16]) -> Result<(), NoMemory> {
    told.push(what)?;
    told.extend_from_slice(words)
}

/// Whether the plain program's words are those of an image.
fn are_same(words: &[i64], image: &[i16]) -> bool {
    words.len() == image.len()
        && words
            .iter()
            .zip(image.iter())
            .all(|(plain, word)| *plain == i64::from(*word))
}

/// The first 16 of these words.
fn words_of(slice: &[i16]) -> Words {
    let mut words = Words::new();
    for word in slice {
        let _full = words.push(*word);
    }
    words
}

/// The words that come at a point, none where nothing is left to come; so many have come.
fn given(point: Point, coming: &[&[i16]], come: &mut usize) -> Option<Words> {
    match point {
        Point::Take | Point::Await => {
            let words = coming.get(*come)?;
            *come = come.saturating_add(1);
            Some(words_of(words))
        }
        Point::Ended => None,
        _ => Some(Words::new()),
    }
}

/// Runs a program and the plain program side by side, until it ends or nothing is left to come of the requests and
/// replies, and puts down what it tells. Says whether both agree at each turn.
pub fn walk(
    alloc: Global,
    program: &Program,
    coming: &[&[i16]],
    restores: bool,
    told: &mut Told,
) -> Result<bool, NoMemory>
    requires { IsLoadable program.now }
{
    let mut come = 0;
    let mut sides = Sides::start(alloc, program, restores)?;
    for _ in 0..2_000 {
        if !sides.agree(alloc)? {
            return Ok(false);
        }
        let point = sides.process.at();
        let Some(words) = given(point, coming, &mut come) else {
            told.push(if point == Point::Ended { ENDS } else { WAITS })?;
            return Ok(true);
        };
        if !sides.step(alloc, &words, told)? {
            return Ok(false);
        }
    }
    Ok(false)
}
