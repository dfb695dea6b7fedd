ghost use Rattle.std.specs.Option.{option_copied};
ghost use Rattle.std.specs.Prelude.{◌≡◌, ◌≢◌, ◌<◌, ◌+◌, ◌^◌};
ghost use Rattle.gd_words.specs.Ranges.{HasNext};
ghost use Rattle.process_semantics.specs.Disc.{disc_start, disc_took, disc_checkpointed, disc_call, disc_done};
ghost use Rattle.process_semantics.specs.Disc.{disc_answer, disc_answered};
ghost use Rattle.process_semantics.specs.declared.point.Point.TheVariants.{Inner, Take, Ask, Await, Answer};
ghost use Rattle.process_semantics.specs.declared.point.Point.TheVariants.{AtCheckpoint, Device};

use crate::calls::{call_of, last_write_after, reply_of};
use crate::phase::Phase;
use gd_words::{DeviceCall, Sector, Words};
use process_semantics::Point;
use std::marker::Model;
use std::mem;

/// How far a disc is, and the number of its last write.
#[derive(Drop)]
pub struct Progress {
    pub phase: Phase,
    pub last_write: u32,
}

impl Model for Progress {
    ghost use Rattle.process_semantics.specs.declared.disc.DiscState.{DiscState};
    ghost use Rattle.disc_process.specs.Serving.{disc_at};

    ghost Value = { DiscState };

    ghost view = { λ progress. disc_at progress.phase progress.last_write };
}

impl Progress {
    /// A disc at its beginning.
    pub fn start() -> Progress
        ensures { result ≡ disc_start }
    {
        Progress {
            phase: Phase::Idle,
            last_write: 0,
        }
    }

    /// What its next step is.
    pub fn point(&self) -> Point
        ensures { result ≡ self.now.label }
    {
        match &self.phase {
            Phase::Idle => Point::Take,
            Phase::Checkpointing(_) => Point::AtCheckpoint,
            Phase::Acting(_) => Point::Device,
            Phase::Answering { .. } => Point::Answer,
        }
    }

    /// A law: a disc process never stands at a point that only programs have.
    pub fn stands_at_no_other_point(&self)
        ensures inner { self.now.label ≢ Inner }
        ensures ask { self.now.label ≢ Ask }
        ensures waiting { self.now.label ≢ Await }
    {
        match &self.phase {
            Phase::Idle | Phase::Checkpointing(_) | Phase::Acting(_) | Phase::Answering { .. } => {}
        }
    }

    /// The number of its last write.
    pub fn last_write(&self) -> u32
        ensures { result ≡ self.now.last_write }
    {
        self.last_write
    }

    /// The request in hand.
    pub fn request(&self) -> Option<&Words>
        ensures { option_copied result ≡ self.now.request }
    {
        match &self.phase {
            Phase::Idle => None,
            Phase::Checkpointing(request) | Phase::Acting(request) => Some(request),
            Phase::Answering { request, .. } => Some(request),
        }
    }

    /// The reply, once the device has acted.
    pub fn reply(&self) -> Option<&Words>
        ensures { option_copied result ≡ self.now.reply }
    {
        match &self.phase {
            Phase::Idle | Phase::Checkpointing(_) | Phase::Acting(_) => None,
            Phase::Answering { reply, .. } => Some(reply),
        }
    }

    /// The step at Take, with the words of the request.
    pub fn took(&mut self, words: &Words)
        requires { self.old.label ≡ Take }
        ensures { self.new ≡ disc_took self.old words.now }
    {
        match &self.phase {
            Phase::Idle => self.phase = Phase::Checkpointing(words.copy()),
            _ => unreachable!(),
        }
    }

    /// The step at a checkpoint.
    pub fn checkpointed(&mut self)
        requires { self.old.label ≡ AtCheckpoint }
        ensures { self.new ≡ disc_checkpointed self.old }
    {
        match mem::replace(&mut self.phase, Phase::Idle) {
            Phase::Checkpointing(request) => self.phase = Phase::Acting(request),
            _ => unreachable!(),
        }
    }

    /// What is to be done to the device for the request in hand, on a disc of so many sectors.
    pub fn call(&self, sectors: u8) -> DeviceCall
        requires point { self.now.label ≡ Device }
        requires numbers { HasNext self.now.last_write }
        ensures { result ≡ disc_call sectors self.now }
    {
        match &self.phase {
            Phase::Acting(request) => call_of(sectors, self.last_write + 1, request.as_slice()),
            _ => unreachable!(),
        }
    }

    /// The step at Device, with the words that stood on the sector.
    pub fn done(&mut self, sectors: u8, found: &Sector)
        requires point { self.old.label ≡ Device }
        requires numbers { HasNext self.old.last_write }
        ensures { self.new ≡ disc_done sectors self.old found.now }
    {
        match mem::replace(&mut self.phase, Phase::Idle) {
            Phase::Acting(request) => {
                let call = call_of(sectors, self.last_write + 1, request.as_slice());
                let reply = reply_of(&call, found);
                self.phase = Phase::Answering { request, reply };
                self.last_write = last_write_after(self.last_write, &call);
            }
            _ => unreachable!(),
        }
    }

    /// The step at Answer: the words of the reply. Nothing is in hand from now on.
    pub fn answered(&mut self) -> Words
        requires { self.old.label ≡ Answer }
        ensures words { result ≡ disc_answer self.old }
        ensures state { self.new ≡ disc_answered self.old }
    {
        match mem::replace(&mut self.phase, Phase::Idle) {
            Phase::Answering { request: _, reply } => reply,
            _ => unreachable!(),
        }
    }
}
