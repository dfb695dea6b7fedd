ghost use Rattle.std.specs.Prelude.{◌≡◌};
ghost use Rattle.explain.specs.Answers.{ending_number};

use explain_decks::Status;
use gd_words::NoMemory;

/// How a call of `explain` ended.
#[derive(Drop)]
pub enum Ending {
    /// The words ask for nothing, and the usage was written.
    Usage,
    /// The usage wasn't written whole.
    UsageUnwritten,
    /// What was asked of the program itself was written.
    Shown,
    /// That wasn't written whole.
    ShownUnwritten,
    /// Memory for the words or for such an answer ran out.
    NoMemory(NoMemory),
    /// It was told of a deck, or tried.
    Told(Status),
}

impl Ending {
    /// The number with which the program ends.
    pub fn number(&self) -> u8
        ensures { result ≡ ending_number self.now }
    {
        match self {
            Ending::Usage => 1,
            Ending::UsageUnwritten => 7,
            Ending::Shown => 0,
            Ending::ShownUnwritten => 7,
            Ending::NoMemory(_) => 8,
            Ending::Told(status) => status.number(),
        }
    }
}
