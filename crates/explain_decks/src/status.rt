ghost use Rattle.std.specs.Prelude.{◌≡◌};
ghost use Rattle.explain_decks.specs.Written.{status_number};

use gd_words::NoMemory;
use tal_tree::DeckFault;

/// How a call ended.
#[derive(Clone, Copy, PartialEq, Eq, Drop)]
pub enum Status {
    /// The deck can be read, its programs are accepted, and what was asked is told.
    Done,
    /// The deck doesn't have the processor that is to stop.
    NoProcessor,
    /// More events of the deck are to be drawn than a chart has room for.
    ChartTooLong,
    /// The deck can be read, and a program of it is refused.
    ProgramRefused,
    Refused(DeckFault),
    ReadFault,
    WriteFault,
    NoMemory(NoMemory),
}

impl Status {
    /// The number with which the program ends.
    pub fn number(&self) -> u8
        ensures { result ≡ status_number self.now }
    {
        match self {
            Status::Done => 0,
            Status::NoProcessor => 1,
            Status::ChartTooLong => 1,
            Status::Refused(_) => 2,
            Status::ProgramRefused => 3,
            Status::ReadFault => 6,
            Status::WriteFault => 7,
            Status::NoMemory(_) => 8,
        }
    }
}
