/// What a copy of a process does: it acts, it watches the one that acts, it is blank and waits for all that that one
/// has, or it is gone with its processor.
#[derive(Clone, Copy, PartialEq, Eq)]
pub enum Role {
    Acting,
    Watching,
    Blank,
    Gone,
}
