use process_semantics::Words;

/// What a process has from one of its openers.
#[derive(Drop)]
pub enum Slot {
    Empty,
    /// A request waits.
    Waiting(Words),
    /// The process has the request in hand.
    Taken,
    /// The reply waits for the opener.
    Answered(Words),
}

/// An opener of a process: the server's place in the deck, and the opener's place among the server's openers.
#[derive(Clone, Copy, PartialEq, Eq)]
pub struct Opener {
    pub server: usize,
    pub place: usize,
}
