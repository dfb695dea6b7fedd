use crate::locals::Locals;

/// A procedure that runs: its number, the number that comes next, and its locals.
#[derive(Drop)]
pub(crate) struct Frame {
    pub(crate) procedure: u16,
    pub(crate) at: u16,
    pub(crate) locals: Locals,
}
