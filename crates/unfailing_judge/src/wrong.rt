use tal_tree::{Act, Shown};

/// After so many things that unfailing processes show too: what the run showed next, and what they show next. None
/// where nothing more is shown.
#[derive(Drop)]
pub struct Apart {
    pub before: usize,
    pub shown: Option<Shown>,
    pub due: Option<Shown>,
}

/// Kept acts that unfailing processes can't all do: each process and terminal in its own order, they do so many, and
/// then none that is left is possible, of which this is the first. What is still to be shown there, if anything is.
#[derive(Drop)]
pub struct Stuck {
    pub made: usize,
    pub act: Act,
    pub apart: Option<Apart>,
}

/// What goes wrong in what a run kept and showed, beside unfailing processes.
#[derive(Drop)]
pub enum Wrong {
    /// They can't do all kept acts.
    Stuck(Stuck),
    /// They show something else than was shown next, or nothing more.
    Differs(Apart),
    /// They do all kept acts and show the same; and the run ended idle, where they have something left to do.
    Left,
}
