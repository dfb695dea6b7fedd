ghost use Rattle.std.specs.Prelude.{◌≡◌};
ghost use Rattle.tal_tree.specs.LimitNumbers.{deck_limit_number, program_limit_number};

/// What a program text has too much of.
#[derive(Clone, Copy, Debug, PartialEq, Eq)]
pub enum ProgramLimit {
    /// Global names.
    Globals,
    /// Words of all globals together.
    GlobalWords,
    /// Words of one array.
    ArrayWords,
    /// Files.
    Files,
    /// Procedures.
    Procedures,
    /// Locals of a procedure, its parameters among them.
    Locals,
    /// Numbered statements.
    Statements,
    /// Levels that stand in one another.
    Levels,
    /// Replies that an OPEN keeps, or too few of them.
    KeptReplies,
}

/// What a deck has too much of.
#[derive(Clone, Copy, Debug, PartialEq, Eq)]
pub enum DeckLimit {
    /// Discs and pairs.
    Processes,
    /// Terminals.
    Terminals,
    /// Requests of a terminal.
    Requests,
    /// Words of a request.
    RequestWords,
    /// Sectors of a disc, or too few of them.
    Sectors,
    /// Single events that the lines of the schedule ask for.
    Singles,
    /// Rounds that they ask for.
    Rounds,
    /// Processors, or too few of them.
    Processors,
}

impl ProgramLimit {
    /// The number by which a report tells this limit.
    pub fn number(self) -> u8
        ensures { result ≡ program_limit_number self }
    {
        match self {
            ProgramLimit::Globals => 1,
            ProgramLimit::GlobalWords => 2,
            ProgramLimit::ArrayWords => 3,
            ProgramLimit::Files => 4,
            ProgramLimit::Procedures => 5,
            ProgramLimit::Locals => 6,
            ProgramLimit::Statements => 7,
            ProgramLimit::Levels => 8,
            ProgramLimit::KeptReplies => 9,
        }
    }
}

impl DeckLimit {
    /// The number by which a report tells this limit.
    pub fn number(self) -> u8
        ensures { result ≡ deck_limit_number self }
    {
        match self {
            DeckLimit::Processes => 1,
            DeckLimit::Terminals => 2,
            DeckLimit::Requests => 3,
            DeckLimit::RequestWords => 4,
            DeckLimit::Sectors => 5,
            DeckLimit::Singles => 6,
            DeckLimit::Rounds => 7,
            DeckLimit::Processors => 8,
        }
    }
}
