use gd_words::List;
use machine_views::Awaited;

/// What is left of the processes and the terminals of a site, both in the deck's order, and the rings of processes of
/// which each awaits a reply of the next, and the last of the first.
#[derive(Drop)]
pub struct Left {
    pub processes: List<ProcessLeft>,
    pub terminals: List<TerminalLeft>,
    pub rings: List<List<usize>>,
}

/// Where a process stands; the number of the process whose reply it awaits, if it awaits one; the line of its program's
/// text at which it stands, if that is known; whether it has a request in hand; and how many requests wait for it.
#[derive(Clone, Copy, PartialEq, Eq, Drop)]
pub struct ProcessLeft {
    pub stand: Stand,
    pub server: Option<usize>,
    pub line: Option<u32>,
    pub in_hand: bool,
    pub waiting: usize,
}

/// Where a process stands.
#[derive(Clone, Copy, PartialEq, Eq, Drop)]
pub enum Stand {
    /// No copy of it acts: the one that did has gone with its processor, and the other hasn't taken over yet.
    AtTakeover,
    /// It has ended.
    Ended,
    /// It waits for a request.
    AtTake,
    /// It waits for the reply to a request that it asked.
    AtAwait(Awaited),
    /// It waits until its other copy acknowledges the checkpoint of this number.
    AtAcknowledgement(u32),
    /// It waits for nothing: the run ended before it had done what it could.
    CanStep,
}

/// What is left of the requests of a terminal.
#[derive(Clone, Copy, PartialEq, Eq, Drop)]
pub enum TerminalLeft {
    /// The request of this number, from 1, was entered and has no reply.
    Unanswered(u32),
    /// All that were entered have their replies: so many.
    Answered(u32),
}
