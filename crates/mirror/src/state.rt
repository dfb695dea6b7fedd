/// How a drive stands.
#[derive(Clone, Copy, PartialEq, Eq)]
pub enum DriveState {
    /// It has all that was written.
    Working,
    /// It has nothing.
    Failed,
    /// A new drive, which has all that was written on the sectors below this one.
    Reviving(u8),
}

/// What came of failing a drive.
#[derive(Clone, Copy, PartialEq, Eq)]
pub enum Failing {
    /// It failed.
    Done,
    /// It had failed before.
    AlreadyFailed,
    /// It is the last that has everything, so it was left as it is.
    LastOne,
}
