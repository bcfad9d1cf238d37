/// What a query asks of a range. The names in scripts are these, in small letters.
#[derive(Clone, Copy, PartialEq, Eq)]
pub enum Kind {
    Sum,
    Least,
    Greatest,
    Best,
    Affine,
    Automaton,
}

/// The value of a kind, as it is shown.
#[derive(Clone, Copy, PartialEq, Eq)]
pub enum Shown {
    /// The sum modulo 2^64.
    Sum(u64),
    /// The least element, if there is one.
    Least(Option<i64>),
    /// The greatest element, if there is one.
    Greatest(Option<i64>),
    /// The greatest total of at least one neighbour, if there is one.
    Best(Option<i128>),
    /// The map `y -> a * y + b` modulo 2^32.
    Affine { a: u32, b: u32 },
    /// The state reached from each of the eight states.
    Automaton([u8; 8]),
}
