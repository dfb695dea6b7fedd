/// How far the prologue of the main procedure has come: nothing stands before; CHECKMONITOR and OPENs alone; it is
/// over, as it is in every other procedure; the body began with something else.
#[derive(Clone, Copy, PartialEq, Eq)]
pub enum Stage {
    Start,
    Opens,
    Over,
    Missed,
}

/// What stands before a statement: the number that the next numbered one bears, how far the prologue has come, how many
/// OPENs there are, and whether one of them names `$RECEIVE`.
#[derive(Clone, Copy)]
pub struct Walk {
    pub number: u16,
    pub stage: Stage,
    pub files: u8,
    pub receive: bool,
}

/// What stands before a procedure: how many procedures, whether one of them is MAIN, and the statements.
#[derive(Clone, Copy)]
pub struct Progress {
    pub count: u16,
    pub has_main: bool,
    pub walk: Walk,
}
