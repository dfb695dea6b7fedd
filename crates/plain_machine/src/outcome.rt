use tal_tree::Shown;
use thiserror::Error;

/// Why an act wasn't made.
#[derive(Debug, Drop, Error)]
pub enum ActFault {
    #[error("the act isn't possible")]
    NotPossible,
}

/// What became of an act that was tried.
#[derive(Drop)]
pub enum Outcome {
    /// It isn't possible, and nothing changed.
    Impossible,
    /// It was made and shows nothing.
    Quiet,
    /// It was made and shows this.
    Shows(Shown),
}
