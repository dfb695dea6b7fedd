use advice_search::Advice;
use gd_words::List;
use path_semantics::{Reason, RefusalFault};
use statement_dues::{Deed, NamedCheckpoint};

/// What is found of a process.
#[derive(Drop)]
pub enum Finding {
    /// A disc has no program.
    Disc,
    Pair(PairFinding),
}

/// What is found of a pair's program: the cause for which it is refused, if it is; what mends it; the lines of its
/// statements in the order of their numbers, from 1; what these do for the reason of the cause, none where the cause
/// has no reason; the place on the cause's path behind its last CHECKPOINT; and the program's CHECKPOINTs.
#[derive(Drop)]
pub struct PairFinding {
    pub refusal: Option<RefusalFault>,
    pub remedy: Remedy,
    pub lines: List<u32>,
    pub deeds: List<Deed>,
    pub since: usize,
    pub checkpoints: List<NamedCheckpoint>,
}

/// What mends a program.
#[derive(Drop)]
pub enum Remedy {
    /// These lists and depths, the least that do.
    Lists(Advice),
    /// No lists and depths: this path breaks with all of them.
    Unmendable { reason: Reason, path: List<u16> },
    /// Its calls are too deep or too many, so that nothing is said of its paths.
    OutOfBounds,
}
