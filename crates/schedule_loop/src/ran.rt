/// How a run ended: idle, with something left to do, before an event that would have stopped this second processor, or
/// before one that would have lost this disc.
#[derive(Clone, Copy, PartialEq, Eq)]
pub enum Ending {
    Idle,
    Cut,
    Second(u8),
    Lost(u8),
}

/// A run that was made: the machine as the run left it, closed where it is idle; how many events were asked for; and
/// how it ended.
#[derive(Drop)]
pub struct Ran<M> {
    pub machine: M,
    pub asked: u64,
    pub ending: Ending,
}
