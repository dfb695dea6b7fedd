use tal_syntax::At;

/// What a name is declared as.
#[derive(Clone, Copy, PartialEq, Eq)]
pub enum Meaning {
    Local(u8),
    Simple(u16),
    Array(u16),
    /// The variable of a file that is opened to `$RECEIVE`, to a process, or by a string that names neither: the number
    /// of its item, and the file's own number in the order of the OPENs.
    ReceiveFile {
        item: u16,
        number: u8,
    },
    ProcessFile {
        item: u16,
        number: u8,
    },
    StrayFile {
        item: u16,
        number: u8,
    },
    Literal(i16),
    /// A procedure: its number in the order of the text, whether it gives a value, and how many parameters it has.
    Procedure {
        number: u16,
        gives: bool,
        parameters: usize,
    },
}

/// What a name has to be where it stands.
#[derive(Clone, Copy, PartialEq, Eq)]
pub enum Need {
    /// A local or a simple global.
    Variable,
    /// A variable or a named constant.
    Readable,
    Array,
    /// A simple global that an OPEN makes the variable of a file.
    FileVariable,
    /// The variable of a file that is opened to `$RECEIVE`.
    Receive,
    /// The variable of a file that is opened to a process.
    Process,
    /// A global that isn't the variable of a file opened to `$RECEIVE`.
    Kept,
}

/// What an expression has to be where it stands: a condition, where a value may stand too, or a value that begins at a
/// token.
#[derive(Clone, Copy, PartialEq, Eq)]
pub enum Wanted {
    Condition,
    Value(At),
}
