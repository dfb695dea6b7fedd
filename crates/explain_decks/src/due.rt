use deck_reader::Deck;
use explain_chart::{Manner, Places};
use explain_left::JudgedDeck;
use gd_words::{List, NoMemory};
use player::ProcessorStop;
use tal_tree::DeckFault;

/// What is due once all is decided and nothing is written yet.
#[derive(Drop)]
pub enum Due {
    /// The bytes are a deck, and it is told of its programs or its run.
    Judged(JudgedDeck),
    /// The bytes are a deck whose programs are accepted, and it is to be run with its events told.
    Runs(TracedDeck),
    /// The bytes are a deck that doesn't have the processor which is to stop.
    NoProcessor,
    /// The bytes are a deck whose programs are accepted, and more of its events are to be drawn than a chart has room
    /// for.
    ChartTooLong,
    Refused(RefusedDeck),
    ReadFault,
    NoMemory(NoMemory),
}

/// The fault for which a deck is refused, and what is told of it before the line that `guardian` writes.
#[derive(Drop)]
pub struct RefusedDeck {
    pub fault: DeckFault,
    pub told: List<u8>,
}

/// A deck, where its statements stand, and how its run is to be told.
#[derive(Drop)]
pub struct TracedDeck {
    pub deck: Deck,
    pub places: Places,
    pub stop: Option<ProcessorStop>,
    pub manner: Manner,
}
