/// Where a process stands: what its next step is.
#[derive(Clone, Copy, PartialEq, Eq)]
pub enum Point {
    /// A step inside the process.
    Inner,
    /// A request is to be taken.
    Take,
    /// A request is to be sent.
    Ask,
    /// The reply to the request that was sent is awaited.
    Await,
    /// The reply to the request in hand is to be given.
    Answer,
    /// A checkpoint.
    AtCheckpoint,
    /// An act on the disc device.
    Device,
    /// There is no next step.
    Ended,
}
