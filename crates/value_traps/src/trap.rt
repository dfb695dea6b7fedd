/// Why an expression has no value.
#[derive(Clone, Copy, PartialEq, Eq)]
pub enum ValueTrap {
    /// A divisor is 0.
    ZeroDivisor,
    /// This index is out of the bounds of its array.
    Index { index: i16, low: i16, high: i16 },
    /// What is read isn't there. No program that was read from its text has such an expression.
    NotThere,
}
