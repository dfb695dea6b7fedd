//! The acts of a report, made one by one on the machine of single unfailing processes.
ghost use Rattle.std.specs.Prelude.{◌≡◌, ◌+◌, ◌<◌, ◌≤◌, ◌↔◌, ◌++◌, IfErr, IfOk, IsTrue, OnOk, length};
ghost use Rattle.plain_machine.specs.Machines.{listed};
ghost use Rattle.plain_machine.specs.Standing.{IsPlayable};
ghost use Rattle.plain_machine.specs.Writes.{HasRoomFor, most_write};
ghost use Rattle.plain_semantics.specs.Machine.{IsStill};
ghost use Rattle.report_reader.specs.Reading.{acts_in};
ghost use Rattle.report_judge.specs.Replays.{GoesOn, GoesOnBy, IsActRefusal, IsBegun, IsReplayOf};

use crate::judge::{VerifyFault, Why};
use gd_words::{List, NoMemory};
use plain_machine::{ActFault, Plain};
use report_reader::Told;
use std::alloc::Global;
use tal_tree::{Act, Shown, Site};

/// A machine on which acts were made, and what they show.
#[derive(Drop)]
pub struct Replay<'a> {
    plain: Plain<'a>,
    shown: List<Shown>,
}

/// Makes the acts that lines tell. There are fewer of them than numbers of 32 bits, which number the writes of discs.
pub(crate) fn replayed<'a>(
    alloc: Global,
    site: &'a Site,
    told: &[Told],
) -> Result<Replay<'a>, VerifyFault>
    requires playable { IsPlayable site.now }
    requires few { length told.now < 4294967295 }
    ensures ok { IfOk result (IsReplayOf site.now (acts_in told.now)) }
    ensures err { IfErr result (IsActRefusal site.now told.now) }
{
    let mut replay = Replay::start(alloc, site)?;
    for (at, one) in told.iter().enumerate() {
        if !replay.goes_on(*one)? {
            let line = at as u32 + 1;
            let why = Why::Act;
            return Err(VerifyFault::Rejected { line, why });
        }
    }
    Ok(replay)
}

impl<'a> Replay<'a> {
    fn start(alloc: Global, site: &'a Site) -> Result<Replay<'a>, NoMemory>
        requires { IsPlayable site.now }
        ensures begun { IfOk result (IsBegun site.now) }
        ensures writes { IfOk result (λ replay. most_write replay.plain.state.processes ≡ 0) }
    {
        let plain = Plain::start(alloc, site)?;
        let shown = List::new(alloc);
        Ok(Replay { plain, shown })
    }

    /// Makes the act that a line tells, if it tells one, and answers whether it is possible.
    fn goes_on(&mut self, one: Told) -> Result<bool, NoMemory>
        requires { HasRoomFor 1 self.old.plain.state }
        ensures goes { IfOk result (GoesOn one self.old self.new) }
        ensures writes { OnOk result (most_write self.new.plain.state.processes
            ≤ most_write self.old.plain.state.processes + 1) }
    {
        match one {
            Told::Act(act) => self.make(act),
            _ => Ok(true),
        }
    }

    fn make(&mut self, act: Act) -> Result<bool, NoMemory>
        requires { HasRoomFor 1 self.old.plain.state }
        ensures goes { IfOk result (GoesOnBy act self.old self.new) }
        ensures writes { OnOk result (most_write self.new.plain.state.processes
            ≤ most_write self.old.plain.state.processes + 1) }
    {
        match self.plain.act(act) {
            Ok(shown) => {
                self.keep(shown)?;
                Ok(true)
            }
            Err(ActFault::NotPossible) => Ok(false),
        }
    }

    fn keep(&mut self, shown: Option<Shown>) -> Result<(), NoMemory>
        ensures plain { OnOk result (self.new.plain ≡ self.old.plain) }
        ensures shown { OnOk result (self.new.shown ≡ self.old.shown ++ listed shown) }
    {
        match shown {
            None => Ok(()),
            Some(shown) => self.shown.push(shown),
        }
    }

    /// What the acts show, in order.
    pub(crate) fn shown(&self) -> &[Shown]
        ensures { result.now ≡ self.now.shown }
    {
        self.shown.as_slice()
    }

    /// Whether no act is possible.
    pub(crate) fn none_left(&self) -> bool
        ensures { IsTrue result ↔ IsStill self.now.plain.site self.now.plain.state }
    {
        self.plain.none_left()
    }
}
