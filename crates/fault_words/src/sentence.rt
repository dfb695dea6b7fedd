ghost use Rattle.std.specs.Prelude.{◌≡◌};
ghost use Rattle.fault_words.specs.Sentences.{deck_limit, program_limit, program_sentence, sentence_of};

use tal_tree::{DeckFault, DeckLimit, ProgramLimit, TalFault};

/// What is wrong, as a sentence without a point. That of a program's fault says nothing of the deck.
pub fn sentence_of(fault: &DeckFault) -> &'static [u8]
    ensures { result.now ≡ sentence_of fault.now }
{
    match fault {
        DeckFault::Line(_) => b"this line is of no form that may stand here",
        DeckFault::Program(_, fault) => program_sentence(fault),
        DeckFault::NameTwice(_) => b"the name was declared before",
        DeckFault::UnknownName(_) =>
            b"this line, or an OPEN of its program, names nothing that is there",
        DeckFault::SameProcessor(_) => b"primary and backup are one processor",
        DeckFault::NoProcessor(_) => b"there is no such processor",
        DeckFault::Limit(_, limit) => deck_limit(*limit),
        DeckFault::NoEnd(_) => b"the deck ends before END, or in a program",
        DeckFault::OpensItself(_) => b"the program opens its own pair",
        DeckFault::TooLong => b"the deck has more than 1,048,576 bytes",
        DeckFault::NoMemory(_) => b"out of memory",
    }
}

fn program_sentence(fault: &TalFault) -> &'static [u8]
    ensures { result.now ≡ program_sentence fault.now }
{
    match fault {
        TalFault::BadCharacter(_) => b"this byte begins no token",
        TalFault::NumberTooLarge(_) => b"the number is too large",
        TalFault::OpenString(_) => b"the string has no end on its line",
        TalFault::NameTooLong(_) => b"the name has more than 31 signs",
        TalFault::Expected(_) => b"no program has this token here",
        TalFault::Unknown(_) => b"the name isn't declared",
        TalFault::Twice(_) => b"this stands a second time",
        TalFault::WrongKind(_) => b"something of another kind has to stand here",
        TalFault::NotBefore(_) => b"the procedure isn't declared before this one",
        TalFault::Prologue(_) => b"the main procedure has to begin with CHECKMONITOR and the OPENs",
        TalFault::Limit(limit, _) => program_limit(*limit),
        TalFault::NoMain(_) => b"no procedure is MAIN",
        TalFault::NoMemory(_) => b"out of memory",
    }
}

/// That a program passes this limit.
fn program_limit(limit: ProgramLimit) -> &'static [u8]
    ensures { result.now ≡ program_limit limit }
{
    match limit {
        ProgramLimit::Globals => b"the program has more than 64 global names",
        ProgramLimit::GlobalWords => b"the globals have more than 1,024 words",
        ProgramLimit::ArrayWords => b"an array has at most 256 words",
        ProgramLimit::Files => b"the program has more than 8 files",
        ProgramLimit::Procedures => b"the program has more than 64 procedures",
        ProgramLimit::Locals => b"the procedure has more than 12 locals and parameters",
        ProgramLimit::Statements => b"the program has more than 2,000 numbered statements",
        ProgramLimit::Levels => b"this stands more than 32 levels deep",
        ProgramLimit::KeptReplies => b"an OPEN keeps 1 to 4 replies, and 1 for $RECEIVE",
    }
}

/// That a deck passes this limit.
fn deck_limit(limit: DeckLimit) -> &'static [u8]
    ensures { result.now ≡ deck_limit limit }
{
    match limit {
        DeckLimit::Processes => b"the deck has more than 16 discs and pairs",
        DeckLimit::Terminals => b"the deck has more than 16 terminals",
        DeckLimit::Requests => b"the terminal has more than 1,000 requests",
        DeckLimit::RequestWords => b"a request has at most 16 words",
        DeckLimit::Sectors => b"a disc has 1 to 64 sectors",
        DeckLimit::Singles => b"the lines ask for more than 1,000,000 single events",
        DeckLimit::Rounds => b"the lines ask for more than 100,000 rounds",
        DeckLimit::Processors => b"a deck has 2 to 16 processors",
    }
}
