use tal_syntax::{Place, ProgramLimit};

/// A rule that a text breaks. Of a limit it is told what the text has too much of.
#[derive(Clone, Copy, PartialEq, Eq)]
pub enum Rule {
    Unknown,
    Twice,
    WrongKind,
    NotBefore,
    Prologue,
    Limit(ProgramLimit),
    NoMain,
}

/// A rule that a text breaks, and where.
#[derive(Clone, Copy, PartialEq, Eq)]
pub struct RuleFault {
    pub place: Place,
    pub rule: Rule,
}
