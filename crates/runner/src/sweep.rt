ghost use Rattle.std.specs.Prelude.{IfOk};
ghost use Rattle.command_dues.specs.Decided.{IsSpelt};
ghost use Rattle.command_dues.specs.schedule_sweeps.specs.Sweeps.{IsSweepOf};
ghost use Rattle.verdicts.specs.Refused.{AreAccepted};

use accepted_decks::an_accepted_deck_meets_the_premises;
use command_dues::{Deck, sweep};
use gd_words::NoMemory;
use logs::Shared;
use run_table::Table;
use std::alloc::Global;

/// The rows of a sweep of a deck.
pub(crate) fn swept(alloc: Global, deck: Deck, runs: u32) -> Result<Table, NoMemory>
    requires spelt { IsSpelt deck }
    requires accepted { AreAccepted deck.site.processes }
    ensures { IfOk result (IsSweepOf deck.site deck.lines runs) }
{
    an_accepted_deck_meets_the_premises();
    let Deck { site, lines } = deck;
    let site = Shared::new(alloc, site)?;
    sweep(alloc, &site, lines.as_slice(), runs)
}
