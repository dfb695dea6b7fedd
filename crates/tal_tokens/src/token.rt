use tal_tree::{Ident, Name, Place};

/// Where a token stands: its place, and its bytes in the text from `start` up to, but without, `end`.
#[derive(Clone, Copy, PartialEq, Eq)]
pub struct At {
    pub place: Place,
    pub start: u32,
    pub end: u32,
}

/// A token of a program text. A name is kept in upper case, and a number is the word that it stands for. A string is
/// `$RECEIVE`, the name of a process, or another text. `Finish` stands after the last token of a whole text.
#[derive(Clone, Copy, PartialEq, Eq)]
pub enum Token {
    Name(At, Ident),
    Number(At, i16),
    Receive(At),
    Process(At, Name),
    Text(At),
    And(At),
    Begin(At),
    By(At),
    Call(At),
    Do(At),
    DownTo(At),
    Else(At),
    End(At),
    For(At),
    If(At),
    Int(At),
    Literal(At),
    Main(At),
    Not(At),
    Or(At),
    Proc(At),
    Return(At),
    Then(At),
    To(At),
    Until(At),
    While(At),
    Assign(At),
    Differs(At),
    AtMost(At),
    AtLeast(At),
    Less(At),
    Greater(At),
    Equal(At),
    Plus(At),
    Minus(At),
    Star(At),
    Slash(At),
    Open(At),
    Close(At),
    OpenIndex(At),
    CloseIndex(At),
    Comma(At),
    Semicolon(At),
    Colon(At),
    Finish(At),
}
