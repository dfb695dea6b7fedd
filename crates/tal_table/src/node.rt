use checkpoint_image::Listed;
use gd_words::List;
use tal_code::{Code, SpotCode, TestCode};
use tal_tree::Variable;

/// What is done at a number of a program. Where its numbers aren't named here, the entry after this one comes next.
#[derive(Drop)]
pub enum Work {
    /// A spot gets a word, and the entry of number `next` comes next.
    Assign {
        to: SpotCode,
        value: Code,
        next: u16,
    },
    /// The entry of number `yes` comes next where the test is true, that of number `no` where it is false.
    Test {
        test: TestCode,
        yes: u16,
        no: u16,
    },
    /// A procedure is entered, and its word goes to the spot, if there is one.
    Call {
        procedure: u16,
        arguments: List<Code>,
        to: Option<SpotCode>,
    },
    Return(Option<Code>),
    /// Nothing changes.
    Pass,
    Stop,
    ReadUpdate {
        buffer: u16,
        most: Code,
        got: Variable,
    },
    WriteRead {
        file: u8,
        buffer: u16,
        send: Code,
        room: Code,
        got: Variable,
    },
    Reply {
        buffer: u16,
        count: Code,
    },
    Checkpoint(Listed),
}

/// A number of a program: its procedure, what is done there, and the number that comes after it.
#[derive(Drop)]
pub struct Node {
    pub procedure: u16,
    pub work: Work,
    pub after: u16,
}

/// A procedure: the number at which it begins, 0 where it is empty, and how many locals it has.
#[derive(Clone, Copy)]
pub struct Heading {
    pub first: u16,
    pub locals: u8,
}
