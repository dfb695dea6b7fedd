//! Kept acts, made one by one on the machine of single unfailing processes, beside what the run showed.
ghost use Rattle.std.specs.Prelude.{◌≤◌};
ghost use Rattle.plain_machine.specs.Writes.{most_write};

use crate::same::is_due;
use gd_words::NoMemory;
use plain_machine::{ActFault, Plain};
use std::alloc::Global;
use tal_tree::{Act, Shown, Site};

/// A machine on which acts were made, how many they are, and how many things they showed, each as the run showed it. No
/// disc has written more often.
#[derive(Drop)]
pub struct Replay<'a> {
    plain: Plain<'a>,
    agreed: usize,
    made: usize,
    ghost written: { most_write plain.state.processes ≤ made },
}

impl<'a> Replay<'a> {
    ghost use Rattle.std.specs.Prelude.{◌≡◌, ◌<◌, ◌≤◌, ◌↔◌, IfOk, IsTrue, length, slice_get};
    ghost use Rattle.plain_machine.specs.Machines.{listed, shown_of};
    ghost use Rattle.plain_machine.specs.Standing.{IsPlayable};
    ghost use Rattle.plain_semantics.specs.Machine.{IsStill, made, plain_start};
    ghost use Rattle.unfailing_judge.specs.Replays.{GoesIfItCan};

    pub(crate) fn start(alloc: Global, site: &'a Site) -> Result<Replay<'a>, NoMemory>
        requires { IsPlayable site.now }
        ensures plain { IfOk result (λ replay. replay.plain
            ≡ record { site = site.now; state = plain_start site.now }) }
        ensures agreed { IfOk result (λ replay. replay.agreed ≡ 0) }
        ensures made { IfOk result (λ replay. replay.made ≡ 0) }
    {
        let plain = Plain::start(alloc, site)?;
        Ok(Replay {
            plain,
            agreed: 0,
            made: 0,
        })
    }

    /// Makes an act if it is possible and shows nothing, or what the run showed next, and answers whether it did. The
    /// numbers of the writes of discs have 32 bits.
    pub(crate) fn go(&mut self, shown: &[Shown], act: Act) -> bool
        requires { self.old.made < 4294967295 }
        ensures { GoesIfItCan shown.now act self.old self.new result }
    {
        let told = self.plain.shows(act);
        if !is_due(told.as_ref(), shown.get(self.agreed)) {
            return false;
        }
        match self.plain.act(act) {
            Err(ActFault::NotPossible) => false,
            Ok(_) => {
                if told.is_some() {
                    self.agreed += 1;
                }
                self.made += 1;
                true
            }
        }
    }

    /// What an act shows if it is made now.
    pub(crate) fn shows(&self, act: Act) -> Option<Shown>
        requires { self.now.made < 4294967295 }
        ensures { listed result ≡ shown_of (made self.now.plain.site self.now.plain.state act) }
    {
        self.plain.shows(act)
    }

    /// How many things were shown, each as the run showed it.
    pub(crate) fn agreed(&self) -> usize
        ensures { result ≡ self.now.agreed }
    {
        self.agreed
    }

    /// How many acts were made.
    pub(crate) fn made(&self) -> usize
        ensures { result ≡ self.now.made }
    {
        self.made
    }

    /// Whether no act is possible.
    pub(crate) fn none_left(&self) -> bool
        ensures { IsTrue result ↔ IsStill self.now.plain.site self.now.plain.state }
    {
        self.plain.none_left()
    }
}
