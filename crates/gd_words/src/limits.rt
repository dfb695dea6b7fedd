//! The limits, each said once. Clauses, definitions and code cite them.

/// A deck has at most this many bytes.
pub const MOST_DECK_BYTES: usize = 1_048_576;

/// A deck has at most this many bytes together with its report.
pub const MOST_INPUT_BYTES: usize = 67_108_864;

/// A site has at most this many processors.
pub const MOST_PROCESSORS: u8 = 16;

/// The number of the node that carries the terminals: it comes after those of the processors.
pub const TERMINAL_NODE: u8 = 16;

/// A site has at most this many nodes: its processors, and the node that carries the terminals.
pub const MOST_NODES: u8 = 17;

/// A processor can be loaded again this often.
pub const MOST_RELOADS: u8 = 127;

/// A site has at most this many processes.
pub const MOST_PROCESSES: usize = 16;

/// A site has at most this many terminals.
pub const MOST_TERMINALS: usize = 16;

/// A terminal has at most this many requests.
pub const MOST_REQUESTS: usize = 1_000;

/// A disc has at most this many sectors.
pub const MOST_SECTORS: u32 = 64;

/// A sector has this many words.
pub const SECTOR_WORDS: usize = 8;

/// A request, a reply, an input and an output have at most this many words.
pub const MOST_MESSAGE_WORDS: usize = 16;

/// The lines of a schedule ask for at most this many single events together.
pub const MOST_SINGLES: u64 = 1_000_000;

/// The lines of a schedule ask for at most this many rounds together.
pub const MOST_ROUNDS: u64 = 100_000;

/// A bus has room for this many packets.
pub const MOST_PACKETS: usize = 4_096;

/// A program has at most this many globals.
pub const MOST_GLOBALS: usize = 64;

/// The globals of a program have at most this many words together, of which a file counts one.
pub const MOST_GLOBAL_WORDS: u32 = 1_024;

/// A global has at most this many words.
pub const MOST_ARRAY_WORDS: u32 = 256;

/// A program opens at most this many files.
pub const MOST_FILES: u8 = 8;

/// At most this many replies are kept for an opener.
pub const MOST_DEPTH: u8 = 4;

/// A program has at most this many procedures.
pub const MOST_PROCEDURES: u16 = 64;

/// A procedure has at most this many locals, its parameters among them.
pub const MOST_LOCALS: usize = 12;

/// A program has at most this many numbered statements.
pub const MOST_STATEMENTS: u16 = 2_000;

/// At most this many levels stand in one another: 32 of parentheses, unary minus, NOT, indexes and statements inside
/// statements, and that of a procedure's own statement.
pub const MOST_LEVELS: usize = 33;

/// The calls of an accepted program go at most this many procedures deep, MAIN counted.
pub const MOST_CALLS: u32 = 16;

/// An accepted program has at most this many numbers with all calls written out.
pub const MOST_WRITTEN_OUT: u32 = 8_192;
