ghost use Rattle.std.specs.Prelude.{◌≡◌, ◌≤◌, ◌+◌, ◌↔◌, IfOk, OnErr, IsErr, IsTrue, Some, None};
ghost use Rattle.plain_semantics.specs.Machine.{made, plain_start, IsStill};
ghost use Rattle.plain_machine.specs.Machines.{listed, shown_of};
ghost use Rattle.plain_machine.specs.Standing.{IsPlayable};
ghost use Rattle.plain_machine.specs.Writes.{HasRoomFor, most_write};

use crate::outcome::{ActFault, Outcome};
use crate::state::State;
use crate::wires::Wires;
use gd_words::NoMemory;
use std::alloc::Global;
use std::marker::Model;
use tal_tree::{Act, Shown, Site};

/// A machine of single unfailing processes, on which acts are made one by one.
#[derive(Drop)]
pub struct Plain<'a> {
    wires: Wires<'a>,
    state: State,
}

impl<'a> Model for Plain<'a> {
    ghost use Rattle.std.specs.Coded.{codes};
    ghost use Rattle.tal_tree.specs.contracts.statement.Statement as statement;
    ghost use Rattle.plain_machine.specs.Machines.{Machine};

    ghost Value = { Machine };

    ghost coded = { Prim.hlevel (codes, statement.the_row.coded) };

    ghost view = { λ plain. record { site = plain.wires; state = plain.state } };
}

impl<'a> Plain<'a> {
    /// The machine of a site at its beginning.
    pub fn start(alloc: Global, site: &'a Site) -> Result<Plain<'a>, NoMemory>
        requires { IsPlayable site.now }
        ensures plain { IfOk result (λ plain. plain ≡ record { site = site.now; state = plain_start site.now }) }
        ensures writes { IfOk result (λ plain. most_write plain.state.processes ≡ 0) }
    {
        let wires = Wires::new(alloc, site)?;
        let state = State::start(alloc, site)?;
        Ok(Plain { wires, state })
    }

    /// Makes an act, and answers what it shows. The numbers of the last writes of discs, which have 32 bits, have
    /// nexts.
    pub fn act(&mut self, act: Act) -> Result<Option<Shown>, ActFault>
        requires { HasRoomFor 1 self.old.state }
        ensures made { IfOk result (λ shown. made self.old.site self.old.state act
            ≡ Some (record { plain = self.new.state; shown = listed shown })) }
        ensures not_possible { IsErr result → made self.old.site self.old.state act ≡ None }
        ensures unchanged { OnErr result (self.new ≡ self.old) }
        ensures site { self.new.site ≡ self.old.site }
        ensures writes { most_write self.new.state.processes ≤ most_write self.old.state.processes + 1 }
    {
        match self.state.made(&self.wires, act) {
            Outcome::Impossible => Err(ActFault::NotPossible),
            Outcome::Quiet => Ok(None),
            Outcome::Shows(shown) => Ok(Some(shown)),
        }
    }

    /// What an act shows if it is made now: a write of a disc, or a reply. Nothing if it isn't possible, or shows
    /// nothing. The numbers of the last writes of discs have nexts.
    pub fn shows(&self, act: Act) -> Option<Shown>
        requires { HasRoomFor 1 self.now.state }
        ensures { listed result ≡ shown_of (made self.now.site self.now.state act) }
    {
        self.state.shows(&self.wires, act)
    }

    /// Whether no act is possible.
    pub fn none_left(&self) -> bool
        ensures { IsTrue result ↔ IsStill self.now.site self.now.state }
    {
        self.state.is_still(&self.wires)
    }
}
