/// How far an operator between values may bind where a value stands: a sum, a product or a factor alone.
#[derive(Clone, Copy, PartialEq, Eq)]
pub enum ValueRank {
    Sum,
    Product,
    Factor,
}

/// Which conditions may stand without parentheses in a place: a chain of OR, one of AND, or what may stand behind NOT.
#[derive(Clone, Copy, PartialEq, Eq)]
pub enum TestRank {
    Or,
    And,
    Not,
}
