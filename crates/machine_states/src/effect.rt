/// What a machine answers to an event: it was done; or it names nothing that is there or can be done; or it would stop
/// this processor in a world that isn't whole, a second one as a rule; or it would lose the last drive with the content
/// of this disc. But for the first case the machine stays as it was.
#[derive(Clone, Copy, PartialEq, Eq)]
pub enum Effect {
    Done,
    Skipped,
    WouldStopSecond(u8),
    WouldLoseDisc(u8),
}
