ghost use Rattle.std.specs.Prelude.{ℕ, List};
ghost use Rattle.accepted_decks.specs.deck_reader.specs.Decks.{Decks};
ghost use Rattle.traced_runs.specs.Traces.{Traces};
ghost use Rattle.accepted_decks.specs.verdicts.specs.Refused.{AreAccepted};

use accepted_decks::{Deck, an_accepted_deck_meets_the_premises};
use gd_io::Sink;
use logs::Shared;
use player::ProcessorStop;
use std::alloc::Global;
use trace_lines::Places;
use traced_runs::{Manner, Ran, TraceFault, run};

/// Runs a deck whose programs are accepted, with a stop of a processor where one is given, and writes the line of each
/// event that this manner tells. The statements stand at these places.
pub fn trace_deck<K: Sink>(
    alloc: Global,
    deck: Deck,
    places: &Places,
    stop: Option<ProcessorStop>,
    manner: Manner,
    sink: &mut K,
) -> Result<Ran, TraceFault>
    requires spelt { (bytes : List ℕ) × Decks bytes deck }
    requires accepted { AreAccepted deck.site.processes }
    ensures { Traces K.held K.faults K.sure sink.old sink.new deck.site places.now deck.lines stop manner result }
{
    an_accepted_deck_meets_the_premises();
    let Deck { site, lines } = deck;
    match Shared::new(alloc, site) {
        Ok(site) => run(alloc, &site, places, lines.as_slice(), stop, manner, sink),
        Err(memory) => Err(TraceFault::NoMemory(memory)),
    }
}
