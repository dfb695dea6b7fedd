use tal_tree::{Op, Rel};

/// What a step takes at once: a number, or the word of a simple variable.
#[derive(Clone, Copy)]
pub enum Operand {
    Number(i16),
    Local(u8),
    Simple(u16),
}

/// A step of code. It changes the word on top of a stack, and may put one there or take the one below it away. A truth
/// is the word 1 or 0.
#[derive(Clone, Copy)]
pub enum Instruction {
    Load(Operand),
    With(Op, Operand),
    /// The word below the top and the one on top, in this order; so are `Compare`, `And` and `Or`.
    Two(Op),
    Minus,
    /// The element of an item, where the word on top is the index.
    Element(u16),
    Truth,
    CompareWith(Rel, Operand),
    Compare(Rel),
    Not,
    And,
    Or,
}
