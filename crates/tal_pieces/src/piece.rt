ghost use Rattle.std.specs.Prelude.{◌≡◌};
ghost use Rattle.tal_pieces.specs.Spelling.{keyword_text, symbol_text, system_text};

use gd_words::{Ident, Name};
use tal_names::System;

/// A keyword that a printed text may have.
#[derive(Clone, Copy, PartialEq, Eq)]
pub enum Keyword {
    And,
    Begin,
    By,
    Call,
    Do,
    DownTo,
    Else,
    End,
    For,
    If,
    Int,
    Main,
    Not,
    Or,
    Proc,
    Return,
    Then,
    To,
    Until,
    While,
}

impl Keyword {
    /// The keyword's letters.
    pub fn text(self) -> &'static [u8]
        ensures { result.now ≡ keyword_text self }
    {
        match self {
            Keyword::And => b"AND",
            Keyword::Begin => b"BEGIN",
            Keyword::By => b"BY",
            Keyword::Call => b"CALL",
            Keyword::Do => b"DO",
            Keyword::DownTo => b"DOWNTO",
            Keyword::Else => b"ELSE",
            Keyword::End => b"END",
            Keyword::For => b"FOR",
            Keyword::If => b"IF",
            Keyword::Int => b"INT",
            Keyword::Main => b"MAIN",
            Keyword::Not => b"NOT",
            Keyword::Or => b"OR",
            Keyword::Proc => b"PROC",
            Keyword::Return => b"RETURN",
            Keyword::Then => b"THEN",
            Keyword::To => b"TO",
            Keyword::Until => b"UNTIL",
            Keyword::While => b"WHILE",
        }
    }
}

/// A symbol.
#[derive(Clone, Copy, PartialEq, Eq)]
pub enum Symbol {
    Assign,
    Differs,
    AtMost,
    AtLeast,
    Less,
    Greater,
    Equal,
    Plus,
    Minus,
    Star,
    Slash,
    Open,
    Close,
    OpenIndex,
    CloseIndex,
    Comma,
    Semicolon,
    Colon,
}

impl Symbol {
    /// The symbol's signs.
    pub fn text(self) -> &'static [u8]
        ensures { result.now ≡ symbol_text self }
    {
        match self {
            Symbol::Assign => b":=",
            Symbol::Differs => b"<>",
            Symbol::AtMost => b"<=",
            Symbol::AtLeast => b">=",
            Symbol::Less => b"<",
            Symbol::Greater => b">",
            Symbol::Equal => b"=",
            Symbol::Plus => b"+",
            Symbol::Minus => b"-",
            Symbol::Star => b"*",
            Symbol::Slash => b"/",
            Symbol::Open => b"(",
            Symbol::Close => b")",
            Symbol::OpenIndex => b"[",
            Symbol::CloseIndex => b"]",
            Symbol::Comma => b",",
            Symbol::Semicolon => b";",
            Symbol::Colon => b":",
        }
    }
}

/// The name of a call of the system.
pub fn system_name(system: System) -> &'static [u8]
    ensures { result.now ≡ system_text system }
{
    match system {
        System::CheckMonitor => b"CHECKMONITOR",
        System::Checkpoint => b"CHECKPOINT",
        System::Open => b"OPEN",
        System::ReadUpdate => b"READUPDATE",
        System::Reply => b"REPLY",
        System::Stop => b"STOP",
        System::WriteRead => b"WRITEREAD",
    }
}

/// A token of a printed text, without a place. A string is `$RECEIVE` or the name of a process.
#[derive(Clone, Copy, PartialEq, Eq)]
pub enum Piece {
    Keyword(Keyword),
    Symbol(Symbol),
    System(System),
    Name(Ident),
    Number(i16),
    Receive,
    Process(Name),
}
